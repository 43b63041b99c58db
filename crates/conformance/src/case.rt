// A case: the state that a run starts from, and the one that the simulator ended it with.
ghost use Rattle.std.specs.Prelude.{◌≡◌, take, slice_set};
ghost use Rattle.conformance.specs.Ending.{stopping, ending_of, allowed};

use cpu::Stop;

pub(crate) const MEMORY: usize = 4096;

pub(crate) const REGISTERS: usize = 32;

// How many indices `show` has, and how many of them a line can tell: those up to DEBA.
pub(crate) const SHOWN: usize = 44;

pub(crate) const TOLD: usize = 38;

// Indices of `show`.
pub(crate) const PC: usize = 32;

const EBA: usize = 36;

const DEBA: usize = 37;

const CC: usize = 39;

// Where programs begin: the first PC and the first EBA. And the first DEBA.
pub(crate) const ORIGIN: u32 = 0x400;

pub(crate) const DEBUG_BASE: u32 = 0x800;

// What `show` tells, by its indices, and what `look` tells, by addresses.
#[derive(Clone, Copy)]
pub(crate) struct State {
    pub(crate) shown: [u32; SHOWN],
    pub(crate) memory: [u8; MEMORY],
}

#[derive(Clone, Copy)]
pub(crate) struct Case<'a> {
    pub(crate) name: &'a str,
    pub(crate) steps: u32,
    pub(crate) start: State,
    pub(crate) end: State,
}

impl State {
    // The start that all cases share, but for the registers and bytes that a line names.
    pub(crate) fn first() -> State {
        let mut shown = [0; SHOWN];
        shown[..REGISTERS].fill(0xA5A5_A5A5);
        shown[PC] = ORIGIN;
        shown[EBA] = ORIGIN;
        shown[DEBA] = DEBUG_BASE;
        State {
            shown,
            memory: [0; MEMORY],
        }
    }

    pub(crate) fn registers(&self) -> [u32; REGISTERS]
        ensures value { result ≡ take 32 self.now.shown }
    {
        *self.shown.first_chunk().unwrap()
    }

    // Puts values where their indices say; what they do not name stays.
    pub(crate) fn put(&mut self, values: &[Option<u32>]) {
        for (shown, value) in self.shown.iter_mut().zip(values) {
            *shown = value.unwrap_or(*shown);
        }
    }
}

impl Case<'_> {
    // Whether a step of it meets a reserved word, so that it ends by a stop.
    fn stops(&self) -> bool
        ensures value { result ≡ stopping self.now.name.now }
    {
        self.name == "reserved"
    }

    // What its run ends with: 0, or the number of the stop.
    pub(crate) fn ending(&self) -> u32
        ensures value { result ≡ ending_of self.now.name.now }
    {
        if self.stops() {
            Stop::Reserved.number().into()
        } else {
            0
        }
    }

    // Whether its run may make so many steps: all of them, or some before the stop.
    pub(crate) fn allows(&self, made: u32) -> bool
        ensures value { result ≡ allowed self.now.name.now self.now.steps made }
    {
        if self.stops() {
            made < self.steps
        } else {
            made == self.steps
        }
    }

    // What `show` has to tell after so many steps: the counter is theirs, the rest the simulator's.
    pub(crate) fn shown_after(&self, made: u32) -> [u32; SHOWN]
        ensures value { result ≡ slice_set self.now.end.shown 39 made }
    {
        let mut shown = self.end.shown;
        shown[CC] = made;
        shown
    }
}
