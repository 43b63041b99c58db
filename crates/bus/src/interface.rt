// The bus as a trait: its meaning as ghost members, and what each call does to that meaning.
ghost use Rattle.std.specs.Prelude.{◌≡◌};
ghost use Rattle.bus.specs.Rules.{Rules, Laws, read_answer, write_answer, written};

use crate::fault::Fault;
use crate::kind::Kind;
use crate::size::Size;

pub trait Bus {
    // what a bus of this make means
    ghost Mean: { Type 0 };

    ghost rules: { Rules Mean };

    ghost means: { Self → Mean };

    // the states in which a make's calls keep to the rules: its making gives them, its calls keep them
    // A member, and no ghost field of the one make that has such states: its type would ask for a bound wherever it is written.
    ghost sound: { Self → Type 0 };

    fn kind(&self, address: u32) -> Kind
        requires { sound self.now }
        ensures { result ≡ rules.kind (means self.now) address };

    fn lines(&self) -> u32
        requires { sound self.now }
        ensures { result ≡ rules.lines (means self.now) };

    // Size and address are two parameters, as the project's rules have a bus asked.
    fn read(&mut self, size: Size, address: u32) -> Result<u32, Fault>
        requires { sound self.old }
        ensures sound { sound self.new }
        ensures meaning { means self.new ≡ means self.old }
        ensures answer { result ≡ read_answer rules (means self.old) size address };

    fn write(&mut self, size: Size, address: u32, value: u32) -> Result<(), Fault>
        requires { sound self.old }
        ensures sound { sound self.new }
        ensures meaning { means self.new ≡ written rules (means self.old) size address value }
        ensures answer { result ≡ write_answer rules (means self.old) size address };

    fn tick(&mut self)
        requires { sound self.old }
        ensures sound { sound self.new }
        ensures meaning { means self.new ≡ rules.ticked (means self.old) };

    // the rules of the meaning, which each make shows
    ghost lawful: { Laws rules };
}
