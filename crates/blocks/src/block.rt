// The 20-byte block of a record.
ghost use Rattle.std.specs.Prelude.{◌≡◌, ◌+◌, ◌≤◌, length, take, drop, Some, Option};
ghost use Rattle.kinds.specs.Words.{bytes32};
ghost use Rattle.registers.specs.declared.record.Record.{Record};
ghost use Rattle.blocks.specs.Layout.{laid, word_at, all_zero};
ghost use Rattle.blocks.specs.Blocks.{value_bytes, ImagedBack, encoded, value_of, decoded};

use kinds::kind::Kind;
use registers::record::{Fields, Record};
use registers::tag::Tag;

pub const BLOCK_LEN: usize = 20;

// The bytes of a value, which are all zero where there is none.
fn value_image<K: Kind>(value: Option<K>) -> [u8; 8]
    ensures bytes { result ≡ value_bytes K.Kind.image_of value }
    ensures back { ImagedBack K.Kind.image_of K.Kind.of_image value }
{
    // tried as `map_or`: the proof did not close
    match value {
        None => [0; 8],
        Some(value) => value.image(),
    }
}

fn lay(tag: u8, r: [u8; 4], a: [u8; 4], v: [u8; 8]) -> [u8; BLOCK_LEN]
    ensures { result ≡ laid tag r a v }
{
    // copying the parts into zeros was tried: the proof did not close, and the list shows the layout
    [
        tag, 0, 0, 0, r[0], r[1], r[2], r[3], a[0], a[1], a[2], a[3], v[0], v[1], v[2], v[3], v[4],
        v[5], v[6], v[7],
    ]
}

// The block of a record, which reads back as that record.
pub fn encode<K: Kind>(item: &Record<K>) -> [u8; BLOCK_LEN]
    ensures bytes { result ≡ encoded K.Kind.image_of item.now }
    ensures back { decoded K.Kind.of_image result ≡ Some item.now }
{
    let fields = item.fields();
    lay(
        fields.tag.into(),
        fields.round.to_be_bytes(),
        fields.accepted.to_be_bytes(),
        value_image(fields.value),
    )
}

// The four bytes from `at` on as a number, highest byte first. Copying them into an
// array first is no plainer: the definition names them by their places.
fn word(block: &[u8], at: usize) -> u32
    requires { at + 4 ≤ length block.now }
    ensures value { result ≡ word_at block.now at }
    ensures bytes { bytes32 result ≡ take 4 (drop at block.now) }
{
    u32::from_be_bytes([block[at], block[at + 1], block[at + 2], block[at + 3]])
}

fn image(block: &[u8]) -> [u8; 8]
    requires { length block.now ≡ 20 }
    ensures { result ≡ drop 12 block.now }
{
    let mut image = [0; 8];
    image.copy_from_slice(&block[12..]);
    image
}

fn is_zero(bytes: &[u8]) -> bool
    ensures { result ≡ all_zero bytes.now }
{
    bytes.iter().all(|byte| *byte == 0)
}

// The value bytes count only where the tag says that there is a value; else they must be zero. None where the tag has a
// value and the bytes are no value's image, or has none and they are not zero.
fn read_value<K: Kind>(tag: Tag, image: [u8; 8]) -> Option<Option<K>>
    ensures value { result ≡ value_of K.Kind.of_image image tag }
    ensures only { (v : Option K) → result ≡ Some v → image ≡ value_bytes K.Kind.image_of v }
{
    match tag {
        Tag::None => is_zero(&image).then_some(None),
        Tag::Pro | Tag::Dec => Some(Some(K::from_image(image)?)),
    }
}

// The record whose block this is; none where the bytes are no lawful record's block.
pub fn decode<K: Kind>(block: &[u8]) -> Option<Record<K>>
    ensures value { result ≡ decoded K.Kind.of_image block.now }
    ensures only { (x : Record K) → result ≡ Some x → block.now ≡ encoded K.Kind.image_of x }
{
    if block.len() != BLOCK_LEN {
        return None;
    }
    let [tag, 0, 0, 0, ..] = block else {
        return None;
    };
    let tag = Tag::try_from(*tag).ok()?;
    let value = read_value(tag, image(block))?;
    let (round, accepted) = (word(block, 4), word(block, 8));
    Record::new(Fields {
        round,
        accepted,
        tag,
        value,
    })
}
