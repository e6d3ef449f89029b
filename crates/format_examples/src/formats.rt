// The worked bytes of blocks, and the images and texts of both kinds at their limits.
use batches::batch::Batch;
use blocks::block::{decode, encode};
use choices::choice::Choice;
use kinds::kind::Kind;
use registers::record::{Fields, Record};
use registers::tag::Tag;
use std::test::Fail;

const BLANK: [u8; 20] = [
    0x4E, 0, 0, 0, 0, 0, 0, 0, 0, 0, 0, 0, 0, 0, 0, 0, 0, 0, 0, 0,
];

// Round 1,000,000,000, accepted round 3, tag pro, batch 5.
const PUT: [u8; 20] = [
    0x50, 0, 0, 0, 0x3B, 0x9A, 0xCA, 0, 0, 0, 0, 3, 0x42, 0, 0, 0, 0, 0, 0, 5,
];

fn put() -> Fields<Batch> {
    Fields {
        round: 1_000_000_000,
        accepted: 3,
        tag: Tag::Pro,
        value: Some(Batch::new(5)),
    }
}

#[test]
fn records_make_these_blocks(rt: HostRuntime) -> Result<(), Fail> {
    assert!(rt; encode::<Batch>(&Record::blank()) == BLANK);
    let record = Record::new(put()).ok_or_else(|| Fail::new("unlawful"))?;
    assert!(rt; encode(&record) == PUT);
    let read = decode::<Batch>(&PUT).ok_or_else(|| Fail::new("unreadable"))?;
    let read = read.fields();
    assert_eq!(rt; (read.round, read.accepted), (1_000_000_000, 3));
    assert_eq!(rt; (read.tag, read.value), (Tag::Pro, Some(Batch::new(5))));
    Ok(())
}

// Whether the block is read as a batch number's once this byte of it is another.
fn is_read_with(block: [u8; 20], at: usize, byte: u8) -> bool {
    let mut changed = block;
    if at < 20 {
        changed[at] = byte;
    }
    decode::<Batch>(&changed).is_some()
}

#[test]
fn only_blocks_of_lawful_records_are_read(rt: HostRuntime) {
    assert!(rt; decode::<Batch>(&[0; 20]).is_none(), "twenty zero bytes");
    assert!(rt; decode::<Batch>(&BLANK[0..19]).is_none(), "nineteen bytes");
    assert!(rt;
        decode::<Choice>(&PUT).is_none(),
        "the image of the other kind"
    );
    for (at, byte, read) in [
        (0usize, 0x50u8, true),
        (0, 0x44, true),
        (0, 0x4E, false),
        (0, 0, false),
        (1, 1, false),
        (2, 1, false),
        (3, 1, false),
        (7, 1, false),
        (8, 0x40, false),
        (11, 0, false),
        (12, 0x43, false),
        (13, 1, false),
    ] {
        assert_eq!(rt; is_read_with(PUT, at, byte), read);
    }
    for at in 8..20 {
        assert!(rt; !is_read_with(BLANK, at, 1), "a value under tag none");
    }
    assert!(rt; is_read_with(BLANK, 7, 1), "a later round under tag none");
}

#[test]
fn images_stop_at_the_limits_of_their_kind(rt: HostRuntime) -> Result<(), Fail> {
    for (region, edition, lawful) in [
        (0u8, 1u8, true),
        (95, 255, true),
        (95, 0, false),
        (96, 1, false),
        (255, 1, false),
    ] {
        assert_eq!(rt; Choice::new(region, u16::from(edition)).is_some(), lawful);
        let image = [0x43, region, 0, edition, 0, 0, 0, 0];
        assert_eq!(rt; Choice::from_image(image).is_some(), lawful);
    }
    assert!(rt;
        Choice::from_image([0; 8]).is_none(),
        "absent is not region 0"
    );
    let most = Choice::new(95, 65535).ok_or_else(|| Fail::new("unlawful"))?;
    assert!(rt; most.image() == [0x43, 95, 0xFF, 0xFF, 0, 0, 0, 0]);
    assert!(rt; Batch::new(4294967295).image() == [0x42, 0, 0, 0, 0xFF, 0xFF, 0xFF, 0xFF]);
    Ok(())
}

#[test]
fn texts_are_written_and_read_back(rt: HostRuntime) -> Result<(), Fail> {
    let choice = Choice::from_text(b"0/65535").ok_or_else(|| Fail::new("no choice"))?;
    let mut out = String::new(rt.alloc());
    choice.append_text(&mut out)?;
    Batch::new(4294967295).append_text(&mut out)?;
    assert!(rt; out.as_str() == "0/655354294967295");
    assert_eq!(rt;
        Batch::from_text(b"4294967295"),
        Some(Batch::new(4294967295))
    );
    Ok(())
}

#[test]
fn other_texts_are_not_read(rt: HostRuntime) {
    for text in [
        "",
        "4294967296",
        "00",
        "05",
        "+5",
        "-0",
        " 5",
        "5 ",
        "5\r",
        "0x5",
        "1/1",
    ] {
        assert!(rt; Batch::from_text(text.as_bytes()).is_none());
    }
    for text in [
        "", "/", "1", "0/0", "96/1", "1/65536", "01/1", "1/01", "1/1/1", "256/1", "1/", "/1",
    ] {
        assert!(rt; Choice::from_text(text.as_bytes()).is_none());
    }
}
