// A record of a netlist: its kind with the operands that the kind uses, and beside it the width and the keep word.
// Nothing is asked of a caller. What else the code knows of a kind stands in `fit` (the width rules, the numbers of an output and a multiplier), `result` and `demand`.
ghost use Rattle.std.specs.Prelude.{◌≡◌, cond, ◌≤◌, ◌<◌, ltb};
ghost use Rattle.netlist.specs.Kinds.{kind_of, shift_range, uses_of, none, one, two, three};
ghost use Rattle.netlist.specs.Limits.{kind_count};
ghost use Rattle.netlist.specs.Rules.{test_all};
ghost use Rattle.netlist.specs.declared.record.Role.TheVariants.{Input, Gate};

// The four fields of a record in the file, used or not.
#[derive(Clone, Copy, PartialEq, Eq)]
pub struct Fields {
    pub a: usize,
    pub b: usize,
    pub c: usize,
    pub k: u64,
}

// A kind, with the fields that it uses.
#[derive(Clone, Copy)]
pub enum Kind {
    Input,
    Constant { k: u64 },
    Register { a: usize, k: u64 },
    Output { a: usize },
    Extract { a: usize, k: u64 },
    Concat { a: usize, b: usize },
    And { a: usize, b: usize },
    Or { a: usize, b: usize },
    Xor { a: usize, b: usize },
    Mux { a: usize, b: usize, c: usize },
    Add { a: usize, b: usize },
    Sub { a: usize, b: usize },
    Mul { a: usize, b: usize },
    Equal { a: usize, b: usize },
    Below { a: usize, b: usize },
    LeftShift { a: usize, k: u64 },
    RightShift { a: usize, k: u64 },
    ArithmeticRightShift { a: usize, k: u64 },
    SignedBelow { a: usize, b: usize },
}

// The role of a record in a design.
#[derive(Clone, Copy)]
pub enum Role {
    Input,
    Register { a: usize, k: u64 },
    Output,
    Gate,
}

#[derive(Clone, Copy)]
pub struct Record {
    pub kind: Kind,
    pub width: u64,
    pub keep: u64,
}

// What a kind uses: the number of its operands, the four fields with 0 where it has no use for one, the k that has to fit
// the width (0 where there is none), and its role. The count stands beside the operands, and no enum in their place, since the check reads all three
// without a test.
#[derive(Clone, Copy)]
pub struct Uses {
    pub count: usize,
    pub a: usize,
    pub b: usize,
    pub c: usize,
    pub k: u64,
    pub word: u64,
    pub role: Role,
}

impl Record {
    // The limits of the format.
    pub const MAX_WIDTH: u64 = 64;

    pub const MAX_COUNT: usize = 2048;

    pub const KINDS: u64 = 19;

    pub const MAX_MULTIPLIER_WIDTH: u64 = 32;

    // Numbers of kinds that the code tests as numbers, here and where a function takes a `code`: with a jump by the kind the check took 1.5 to 1.7
    // times the time of plain C, and 0.9 with ranges. Those below the register have no operand. Those below the concat have one, and so have the
    // shifts, which end before the signed below. Of the others only the mux has three.
    pub const CONSTANT: u64 = 1;

    pub const REGISTER: u64 = 2;

    pub const OUTPUT: u64 = 3;

    pub const EXTRACT: u64 = 4;

    pub const CONCAT: u64 = 5;

    pub const MUX: u64 = 9;

    pub const MUL: u64 = 12;

    pub const EQUAL: u64 = 13;

    pub const LEFT_SHIFT: u64 = 15;

    pub const SIGNED_BELOW: u64 = 18;

    // The record that a kind's number, a width, the four fields and a keep word make.
    pub fn new(code: u64, width: u64, fields: Fields, keep: u64) -> Record
        ensures { result ≡ record { kind = kind_of code fields; width = width; keep = keep } }
    {
        let kind = Kind::new(code, fields);
        Record { kind, width, keep }
    }
}

impl Kind {
    // The kind with a number, carrying the fields that it uses. It is no `TryFrom`: `kind_of` gives every number a kind,
    // and takes the number and the fields as two, as the format has them.
    #[tactic(auto, unfolding(crate::specs::Kinds::kind_of))]
    pub fn new(code: u64, fields: Fields) -> Kind
        ensures { result ≡ kind_of code fields }
    {
        let a = fields.a;
        let b = fields.b;
        let c = fields.c;
        let k = fields.k;
        match code {
            1 => Kind::Constant { k },
            2 => Kind::Register { a, k },
            3 => Kind::Output { a },
            4 => Kind::Extract { a, k },
            5 => Kind::Concat { a, b },
            6 => Kind::And { a, b },
            7 => Kind::Or { a, b },
            8 => Kind::Xor { a, b },
            9 => Kind::Mux { a, b, c },
            10 => Kind::Add { a, b },
            11 => Kind::Sub { a, b },
            12 => Kind::Mul { a, b },
            13 => Kind::Equal { a, b },
            14 => Kind::Below { a, b },
            15 => Kind::LeftShift { a, k },
            16 => Kind::RightShift { a, k },
            17 => Kind::ArithmeticRightShift { a, k },
            18 => Kind::SignedBelow { a, b },
            _ => Kind::Input,
        }
    }

    // Whether a number is a shift's.
    pub fn is_shift(code: u64) -> bool
        ensures { result ≡ test_all (shift_range code) }
    {
        Record::LEFT_SHIFT <= code && code < Record::SIGNED_BELOW
    }
}

impl Role {
    // The role of the kind with a number.
    #[tactic(auto, unfolding(crate::specs::Kinds::kind_of))]
    pub fn new(code: u64, fields: Fields) -> Role
        ensures { result ≡ (uses_of (kind_of code fields)).role }
    {
        let a = fields.a;
        let k = fields.k;
        match code {
            0 => Role::Input,
            2 => Role::Register { a, k },
            3 => Role::Output,
            _ => Role::of_other(code),
        }
    }

    // A number above those of the kinds reads as an input.
    fn of_other(code: u64) -> Role
        ensures { result ≡ cond (ltb code kind_count) Gate Input }
    {
        if code < Record::KINDS {
            Role::Gate
        } else {
            Role::Input
        }
    }
}

impl Uses {
    // What the kind with a number uses. The processor predicts tests of ranges better than a jump by the number.
    #[tactic(auto, using(crate::proofs::KindLaws::kind_of_beyond, crate::proofs::KindLaws::shifts, crate::proofs::KindLaws::two_operands), unfolding(crate::specs::Kinds::kind_of))]
    pub fn new(code: u64, fields: Fields) -> Uses
        ensures { result ≡ uses_of (kind_of code fields) }
    {
        if code < Record::REGISTER {
            return Uses::of_source(code, fields);
        }
        if code < Record::CONCAT {
            return Uses::of_single(code, fields);
        }
        if code == Record::MUX {
            return Uses::three(fields.a, fields.b, fields.c);
        }
        if Kind::is_shift(code) {
            return Uses::one(fields.a, fields.k, 0, Role::Gate);
        }
        if code < Record::KINDS {
            return Uses::two(fields.a, fields.b);
        }
        Uses::none(0, 0, Role::Input)
    }

    // What an input or a constant uses, the kinds with no operand.
    #[tactic(auto, unfolding(crate::specs::Kinds::kind_of))]
    fn of_source(code: u64, fields: Fields) -> Uses
        requires { code < 2 }
        ensures { result ≡ uses_of (kind_of code fields) }
    {
        let k = fields.k;
        match code {
            0 => Uses::none(0, 0, Role::Input),
            _ => Uses::none(k, k, Role::Gate),
        }
    }

    // What a register, an output or an extract uses, the kinds with one operand.
    #[tactic(auto, unfolding(crate::specs::Kinds::kind_of))]
    fn of_single(code: u64, fields: Fields) -> Uses
        requires { (2 ≤ code) × (code < 5) }
        ensures { result ≡ uses_of (kind_of code fields) }
    {
        let a = fields.a;
        let k = fields.k;
        match code {
            2 => Uses::one(a, k, k, Role::Register { a, k }),
            3 => Uses::one(a, 0, 0, Role::Output),
            _ => Uses::one(a, k, 0, Role::Gate),
        }
    }

    // One function for each number of operands, as the definitions have them.
    fn none(k: u64, word: u64, role: Role) -> Uses
        ensures { result ≡ none k word role }
    {
        Uses {
            count: 0,
            a: 0,
            b: 0,
            c: 0,
            k,
            word,
            role,
        }
    }

    fn one(a: usize, k: u64, word: u64, role: Role) -> Uses
        ensures { result ≡ one a k word role }
    {
        Uses {
            count: 1,
            a,
            ..Uses::none(k, word, role)
        }
    }

    fn two(a: usize, b: usize) -> Uses
        ensures { result ≡ two a b }
    {
        Uses {
            count: 2,
            b,
            ..Uses::one(a, 0, 0, Role::Gate)
        }
    }

    fn three(a: usize, b: usize, c: usize) -> Uses
        ensures { result ≡ three a b c }
    {
        Uses {
            count: 3,
            c,
            ..Uses::two(a, b)
        }
    }
}
