// A window: some registers of a bank, one after another, as a bank of their own.
ghost use Rattle.std.specs.Prelude.{◌≡◌, length};
ghost use Rattle.registers.specs.Cells.{write_answer, write_cells};
ghost use Rattle.std.specs.Option.{ok_or};
ghost use Rattle.registers.specs.Refusals.{numbered, refusal_number};
ghost use Rattle.registers.specs.declared.refusal.Refusal.TheVariants.{NoRegister};
ghost use Rattle.layers.specs.Below.{write_below};
ghost use Rattle.layers.specs.Windows.{window_size, window_place, window_cells, WindowRest, window_rest};

use registers::bank::{ReadBank, WriteBank, index_of};
use registers::record::{Fields, Record};
use registers::refusal::Refusal;

// Register j of the window is register first + j - 1 of the bank below. A window that does not fit
// has no register.
#[derive(Drop)]
pub struct Window<B> {
    below: B,
    first: usize,
    count: usize,
}

impl<B> Window<B> {
    pub fn new(below: B, first: usize, count: usize) -> Window<B>
        ensures below { result.below ≡ below }
        ensures first { result.first ≡ first }
        ensures count { result.count ≡ count }
    {
        Window {
            below,
            first,
            count,
        }
    }

    // Points the window anew, at other registers of the same bank.
    pub fn point(&mut self, first: usize, count: usize)
        ensures below { self.new.below ≡ self.old.below }
        ensures first { self.new.first ≡ first }
        ensures count { self.new.count ≡ count }
    {
        self.first = first;
        self.count = count;
    }

    // How many registers the window has over `size` of them: `first` has to be one of those, and
    // `count` at most as many as there are from it on. No sum is taken that could wrap.
    fn extent(&self, size: usize) -> usize
        ensures { result ≡ window_size size self.now.first self.now.count }
    {
        let (first, count) = (self.first, self.count);
        if (1..=size).contains(&first) && (1..=size - first + 1).contains(&count) {
            count
        } else {
            0
        }
    }

    // The register of `size` of them that a register of the window is. Refuses (1) where it is none.
    fn place(&self, size: usize, register: usize) -> Result<usize, Refusal>
        ensures { numbered result ≡ ok_or (window_place size self.now.first self.now.count register) (refusal_number NoRegister) }
    {
        Ok(self.first + index_of(register, self.extent(size))?)
    }
}

// A permutation's layer has impls of the same shape. One layer over a trait of places is no plainer:
// each map of places would owe laws on what it shows, and their proofs would stand in specs/.
impl<B: ReadBank> ReadBank for Window<B> {
    type Value = B::Value;

    ghost cells = { λ w. window_cells (B.cells w.below) w.first w.count };

    fn size(&self) -> usize {
        self.extent(self.below.size())
    }

    fn read(&self, register: usize) -> Result<Record<B::Value>, Refusal> {
        let at = self.place(self.below.size(), register)?;
        self.below.read(at)
    }
}

impl<B: WriteBank> WriteBank for Window<B> {
    ghost Rest = { WindowRest B.Value B.Rest };

    ghost rest = { λ w. window_rest (B.cells w.below) w.first w.count (B.rest w.below) };

    fn write(&mut self, register: usize, fields: &Fields<B::Value>) -> Result<(), Refusal>
        ensures answer { numbered result ≡ write_answer (⟦<Window<B> as ReadBank>⟧.cells self.old) register fields.now }
        ensures after { ⟦<Window<B> as ReadBank>⟧.cells self.new ≡ write_cells (⟦<Window<B> as ReadBank>⟧.cells self.old) register fields.now }
        ensures size { length (⟦<Window<B> as ReadBank>⟧.cells self.new) ≡ length (⟦<Window<B> as ReadBank>⟧.cells self.old) }
        ensures rest { ⟦<Window<B> as WriteBank>⟧.rest self.new ≡ ⟦<Window<B> as WriteBank>⟧.rest self.old }
        ensures below { B.cells self.new.below ≡ write_below (window_place (length (B.cells self.old.below)) self.old.first self.old.count register) (B.cells self.old.below) fields.now }
    {
        let at = self.place(self.below.size(), register)?;
        self.below.write(at, fields)
    }
}
