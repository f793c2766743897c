// Why a call is refused, the number of each refusal, and a refused call's answer.
// Nothing is asked of a caller.
ghost use Rattle.std.specs.Prelude.{◌≡◌, ◌<◌};
ghost use Rattle.netlist.specs.Refusals.{number_of, refused};

#[derive(Clone, Copy)]
pub enum Refusal {
    TooShort = 1,
    BadMark = 2,
    BadVersion = 3,
    TooManyRecords = 4,
    BadLength = 5,
    BadKind = 6,
    BadWidth = 7,
    BadOperand = 8,
    BadWidthRule = 9,
    UnusedBit = 10,
    BadList = 11,
    WideWord = 12,
    BadDestination = 13,
    BadMask = 14,
    WideMultiplier = 15,
}

// What a refused call answers: the refusal, and the record that it is about.
#[derive(Clone, Copy)]
pub struct Refused {
    pub refusal: Refusal,
    pub at: usize,
}

impl Refusal {
    // The number of an enum's case is taken by `as`.
    pub fn number(self) -> u64
        ensures number { result ≡ number_of self }
        ensures bound { result < 256 }
    {
        self as u64
    }

    // This refusal of record i.
    pub fn at(self, i: usize) -> Refused
        ensures { result ≡ refused self i }
    {
        Refused {
            refusal: self,
            at: i,
        }
    }
}

// A refusal that is about no record names record 0.
impl From<Refusal> for Refused {
    ghost from_gives = { λ refusal result. result ≡ refused refusal 0 };

    fn from(refusal: Refusal) -> Refused {
        refusal.at(0)
    }
}
