// Sets of literals as words of 64 bits.
ghost use Rattle.std.specs.Prelude.{◌≡◌, ◌≤◌};
ghost use Rattle.literals.specs.Membership.{Membership};
ghost use Rattle.literals.specs.Literals.{opposite, opposites, has, with, without, covers, lowest, all, place, at_place, single, rotated, of_first};

// Literal 2f + 1 says that fluent f is true, and 2f that it is false. Fluents are below 32, so literals are below 64.
pub type Literal = u8;

// Bit f stands for "f is true", and bit 32 + f for "f is false".
pub type LiteralSet = u64;

// The literal that says the contrary.
pub fn opposite(literal: Literal) -> Literal
    ensures { result ≡ opposite literal }
{
    literal / 2 * 2 + (1 - literal % 2)
}

// The opposite of each member.
pub fn opposites(set: LiteralSet) -> LiteralSet
    ensures { result ≡ opposites set }
{
    rotated(set, 32)
}

// Whether a literal is a member; a number past the literals is none.
pub fn contains(set: LiteralSet, literal: Literal) -> bool
    ensures value { result ≡ has set literal }
    ensures laws { Membership }
{
    holds(set, place(literal))
}

// The set with one literal more; a number past the literals adds nothing.
pub fn with(set: LiteralSet, literal: Literal) -> LiteralSet
    ensures { result ≡ with set literal }
{
    set | single(literal)
}

// The members of a set that are not in the other.
pub fn without(set: LiteralSet, other: LiteralSet) -> LiteralSet
    ensures { result ≡ without set other }
{
    set ^ (set & other)
}

// Whether each member of the part is in the set.
pub fn covers(set: LiteralSet, part: LiteralSet) -> bool
    ensures { result ≡ covers set part }
{
    without(part, set) == 0
}

// The member with the lowest number. Its fluent is the lowest of which either literal is a member.
pub fn lowest(set: LiteralSet) -> Option<Literal>
    ensures { result ≡ lowest set }
{
    let fluent = (set | set >> 32).trailing_zeros() as u8;
    let literal = 2 * fluent + u8::from(!contains(set, 2 * fluent));
    (fluent < 32).then_some(literal)
}

// Every literal of the first fluents; there are no more than 32.
pub fn all(fluents: u8) -> LiteralSet
    ensures { result ≡ all fluents }
{
    of_first(fluents.min(32))
}

// The bit of a literal; a number past the literals is past the bits, by which the functions that shift by it know it, as the definitions do.
fn place(literal: Literal) -> u8
    ensures { result ≡ place literal }
{
    if literal >= 64 {
        return literal;
    }
    literal / 2 + 32 * (1 - literal % 2)
}

// Whether a bit is set; there are 64.
fn holds(set: LiteralSet, at: u8) -> bool
    ensures value { result ≡ at_place set at }
    ensures laws { Membership }
{
    at < 64 && set >> at & 1 == 1
}

// The set of one literal, or of none where the number is past the literals.
fn single(literal: Literal) -> LiteralSet
    ensures { result ≡ single literal }
{
    if literal < 64 { 1 << place(literal) } else { 0 }
}

// The bits moved up, those past the end to the start.
fn rotated(set: LiteralSet, by: u32) -> LiteralSet
    ensures { result ≡ rotated by set }
{
    set.rotate_left(by)
}

// Every literal of the fluents below a count.
fn of_first(count: u8) -> LiteralSet
    requires { count ≤ 32 }
    ensures { result ≡ of_first count }
{
    let low = (1 << count) - 1;
    low << 32 | low
}
