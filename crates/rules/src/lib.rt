// What the crates share: the words of an instruction, and the answers of the calls. What each call answers, and when, is said in specs/ of
// the call's crate.
#![tactic(auto)]

ghost use Rattle.std.specs.Prelude.{◌≡◌};
ghost use Rattle.rules.specs.Refusal.{number_of, placed};

// The words of an instruction: `width` of specs/CodeWords.
pub const WIDTH: usize = 4;

// Why a call is refused: the refusals of the papers, in the order of their numbers, 1 to 17.
#[derive(Clone, Copy, Debug, PartialEq, Eq)]
pub enum Reason {
    TableLength = 1,
    UnknownKind,
    UnusedWord,
    NoVariable,
    ChildNotBelow,
    ChildClass,
    RootClass,
    NotOnce,
    Depth,
    StoreLength,
    Label,
    CodeRoom,
    Code,
    Text,
    TextRoom,
    DepotRoom,
    Grammar,
}

impl Reason {
    // The number that the papers give it.
    pub fn number(self) -> u32
        ensures { result ≡ number_of self }
    {
        self as u32
    }

    // The refusal for this reason, of this place.
    pub fn at(self, place: u32) -> Refusal
        ensures { result ≡ placed self place }
    {
        Refusal {
            reason: self,
            place,
        }
    }
}

// A refusal carries its reason and its place.
#[derive(Clone, Copy, Debug, PartialEq, Eq)]
pub struct Refusal {
    pub reason: Reason,
    pub place: u32,
}

// Where a code run stands, and how many steps it took.
#[derive(Clone, Copy, Debug, PartialEq, Eq)]
pub struct Halt {
    pub label: u32,
    pub steps: u32,
}

// How many instructions were written, and the label after them.
#[derive(Clone, Copy, Debug, PartialEq, Eq)]
pub struct Made {
    pub instructions: u32,
    pub end: u32,
}

// How a run that is not refused ends. A source run tells its steps, a code run its halt.
#[derive(Clone, Copy, Debug, PartialEq, Eq)]
pub enum End<T> {
    Finished(T),
    OutOfFuel(T),
}
