// A choice of a tax region, 0 to 95, with an edition of its rates, 1 to 65,535.
ghost use Rattle.std.specs.Prelude.{◌≡◌, true};
ghost use Rattle.choices.specs.Regions.{is_choice};

pub mod methods;

#[derive(Clone, Copy, PartialEq, Eq, Debug)]
pub struct Choice {
    region: u8,
    edition: u16,
    ghost lawful: { is_choice region edition ≡ true },
}
