// Values of 32 bits that stop at the ends of their range: each exact result is worked out in 64 bits, where it fits.
// Where a contract has the name of a function here, it means the definition of `rules`.

#![tactic(auto)]

ghost use Rattle.std.specs.Prelude.{◌≡◌, ℤ, false, not, ◌&&◌, ◌||◌, neg_ℤ, ◌+ℤ◌, ◌-ℤ◌, ◌*ℤ◌};
ghost use Rattle.std.proofs.Math.Option.{some};
ghost use Rattle.std.specs.Int.Signed.{lt_z};
ghost use Rattle.rules.specs.Fields.{signed, bits};
ghost use Rattle.rules.specs.Values.{clamp, is_zero, quotient, equal, truth, flag, apply1, apply2};
ghost use Rattle.values.specs.Operators.{option_of, binary_number, unary_number};

// Kind 11: the operators of two operands, in the order of their numbers.
#[derive(Clone, Copy)]
pub enum BinaryOperator {
    Sum,
    Difference,
    Product,
    Quotient,
    Less,
    Equal,
    Both,
    Either,
}

// Kind 12: the operators of one operand, in the order of their numbers.
#[derive(Clone, Copy)]
pub enum UnaryOperator {
    Negation,
    Opposite,
}

impl From<u8> for BinaryOperator {
    ghost from_gives = { λ op result. (a b : ℤ) → apply2 (binary_number result) a b ≡ apply2 op a b };

    // A table that is accepted names no number above 7.
    fn from(op: u8) -> Self {
        match op {
            0 => BinaryOperator::Sum,
            1 => BinaryOperator::Difference,
            2 => BinaryOperator::Product,
            3 => BinaryOperator::Quotient,
            4 => BinaryOperator::Less,
            5 => BinaryOperator::Equal,
            6 => BinaryOperator::Both,
            _ => BinaryOperator::Either,
        }
    }
}

impl From<u8> for UnaryOperator {
    ghost from_gives = { λ op result. (a : ℤ) → apply1 (unary_number result) a ≡ apply1 op a };

    fn from(op: u8) -> Self {
        if op == 0 {
            UnaryOperator::Negation
        } else {
            UnaryOperator::Opposite
        }
    }
}

impl BinaryOperator {
    // None where the operator has no value: a quotient by 0.
    pub fn apply(self, a: i32, b: i32) -> Option<i32>
        ensures { option_of result ≡ apply2 (binary_number self) a b }
    {
        let value = match self {
            BinaryOperator::Sum => sum(a, b),
            BinaryOperator::Difference => difference(a, b),
            BinaryOperator::Product => product(a, b),
            BinaryOperator::Quotient => {
                if b == 0 {
                    return None;
                }
                quotient(a, b)
            }
            BinaryOperator::Less => less(a, b),
            BinaryOperator::Equal => equal(a, b),
            BinaryOperator::Both => both(a, b),
            BinaryOperator::Either => either(a, b),
        };
        Some(value)
    }
}

impl UnaryOperator {
    pub fn apply(self, a: i32) -> i32
        ensures { result ≡ apply1 (unary_number self) a }
    {
        match self {
            UnaryOperator::Negation => negation(a),
            UnaryOperator::Opposite => opposite(a),
        }
    }
}

// The nearer end where x is out of range.
pub fn clamp(x: i64) -> i32
    ensures { result ≡ clamp x }
{
    x.clamp(i64::from(i32::MIN), i64::from(i32::MAX)) as i32
}

pub fn sum(a: i32, b: i32) -> i32
    ensures { result ≡ clamp (a +ℤ b) }
{
    clamp(i64::from(a) + i64::from(b))
}

pub fn difference(a: i32, b: i32) -> i32
    ensures { result ≡ clamp (a -ℤ b) }
{
    clamp(i64::from(a) - i64::from(b))
}

pub fn product(a: i32, b: i32) -> i32
    ensures { result ≡ clamp (a *ℤ b) }
{
    clamp(i64::from(a) * i64::from(b))
}

// Only the lowest value by -1 is out of range. By 0 there is no value.
pub fn quotient(a: i32, b: i32) -> i32
    requires { is_zero b ≡ false }
    ensures { some result ≡ quotient a b }
{
    clamp(i64::from(a) / i64::from(b))
}

pub fn negation(a: i32) -> i32
    ensures { result ≡ clamp (neg_ℤ a) }
{
    clamp(-i64::from(a))
}

pub fn less(a: i32, b: i32) -> i32
    ensures { result ≡ flag (lt_z a b) }
{
    i32::from(a < b)
}

pub fn equal(a: i32, b: i32) -> i32
    ensures { result ≡ flag (equal a b) }
{
    i32::from(a == b)
}

pub fn both(a: i32, b: i32) -> i32
    ensures { result ≡ flag (truth a && truth b) }
{
    i32::from(a != 0 && b != 0)
}

pub fn either(a: i32, b: i32) -> i32
    ensures { result ≡ flag (truth a || truth b) }
{
    i32::from(a != 0 || b != 0)
}

pub fn opposite(a: i32) -> i32
    ensures { result ≡ flag (not (truth a)) }
{
    i32::from(a == 0)
}

// The value that 32 bits spell in two's complement.
pub fn signed(w: u32) -> i32
    ensures { result ≡ signed w }
{
    w.cast_signed()
}

// The 32 bits that spell a value.
pub fn unsigned(v: i32) -> u32
    ensures { result ≡ bits v }
{
    v.cast_unsigned()
}
