// What the bodies of items hold: kinds, events, bounds, leaves and counts at a place of terms, and refusal 3 at each of them.
#![tactic(auto)]

mod kinds;
mod places;

ghost use Rattle.std.specs.Prelude.{◌≡◌, ◌+◌, ◌*◌, ◌<◌, ◌≤◌, length, take, drop};
ghost use Rattle.meaning.specs.Terms.{Terms};
ghost use Rattle.meaning.specs.Log.{carries};
ghost use Rattle.format.specs.Fields.{norm_type_of, event_of, bound_of, happening_of, count_of, neither, leaf_from, kind_wrong, event_wrong, bound_wrong, happening_wrong, count_wrong, leaf_wrong};
ghost use Rattle.fields.specs.Decoded.{decoded, Signs, LeafAt, leaf_item, ExpressionAt};

use grammar::{Item, Spot, item_at, read_expression, u16_at, u32_at};
pub use kinds::Kinds;
use meaning::{Atom, Bound, CountLeaf, Event, Leaf, NormType, Stage};
pub use places::Places;

// The attributes that a mask has room for.
pub const ATTRIBUTES: u8 = 16;

// The largest offset.
pub const OFFSET_LIMIT: u32 = 2147483647;

// The form of an event that is a kind.
pub const KIND_FORM: u8 = 0;

// The signs of a bound.
#[derive(Clone, Copy, Debug, PartialEq, Eq)]
enum Sign {
    Plain = 0,
    Plus = 1,
    Minus = 2,
    Open = 3,
}

// A byte that is no bound's sign.
#[derive(Clone, Copy, Debug, PartialEq, Eq)]
struct UnknownSign(u8);

impl TryFrom<u8> for Sign {
    type Error = UnknownSign;

    ghost try_from_gives = { Signs };

    fn try_from(byte: u8) -> Result<Self, UnknownSign> {
        match byte {
            0 => Ok(Sign::Plain),
            1 => Ok(Sign::Plus),
            2 => Ok(Sign::Minus),
            3 => Ok(Sign::Open),
            _ => Err(UnknownSign(byte)),
        }
    }
}

// What an expression at a place is: a leaf or a count; a connective, with the spots of its two operands; or always.
#[derive(Clone, Copy, Debug, PartialEq, Eq)]
pub enum Expression {
    Leaf(Atom),
    And(Spot, Spot),
    Or(Spot, Spot),
    Except(Spot, Spot),
    Always,
}

// Whether a mask has an attribute.
pub fn carries(mask: u16, attribute: u8) -> bool
    ensures { result ≡ carries mask attribute }
{
    attribute < ATTRIBUTES && (mask >> attribute) & 1 == 1
}

// The event of a form and a number, if the form names one.
#[tactic(auto, unfolding(format::specs::Fields::event_of, format::specs::Fields::stage_event))]
fn event_of(form: u8, number: u8) -> Option<Event>
    ensures { decoded result ≡ event_of form number }
{
    if form == KIND_FORM {
        return Some(Event::Kind(number));
    }
    let stage = Stage::try_from(form).ok()?;
    Some(Event::StageOf(stage, number))
}

// The bound at a place, if its sign and the form of its event name one.
#[tactic(auto, unfolding(format::specs::Fields::bound_of, format::specs::Bytes::byte_at))]
fn bound_at(terms: &[u8], at: usize) -> Option<Bound>
    requires { at + 7 ≤ length terms.now }
    ensures { decoded result ≡ bound_of terms.now at }
{
    let Ok(sign) = Sign::try_from(terms[at]) else {
        return None;
    };
    let offset = u32_at(terms, at + 3);
    match sign {
        Sign::Plain => Some(Bound::Plain(offset)),
        Sign::Plus => Some(Bound::Plus(event_of(terms[at + 1], terms[at + 2])?, offset)),
        Sign::Minus => Some(Bound::Minus(event_of(terms[at + 1], terms[at + 2])?, offset)),
        Sign::Open => Some(Bound::Open),
    }
}

// The event in a window whose item 03 starts at a place.
fn happening_at(terms: &[u8], at: usize) -> Option<Atom>
    requires { at + 17 ≤ length terms.now }
    ensures { decoded result ≡ happening_of (take 17 (drop at terms.now)) }
{
    let event = event_of(terms[at + 1], terms[at + 2])?;
    let lower = bound_at(terms, at + 3)?;
    let upper = bound_at(terms, at + 10)?;
    Some(Atom::Happens(Leaf {
        event,
        lower,
        upper,
    }))
}

// The count whose item 08 starts at a place.
fn count_at(terms: &[u8], at: usize) -> Option<Atom>
    requires { at + 20 ≤ length terms.now }
    ensures { decoded result ≡ count_of (take 20 (drop at terms.now)) }
{
    let kind = terms[at + 1];
    let threshold = u32_at(terms, at + 2);
    let lower = bound_at(terms, at + 6)?;
    let upper = bound_at(terms, at + 13)?;
    Some(Atom::Counts(CountLeaf {
        kind,
        threshold,
        lower,
        upper,
    }))
}

// A leaf that neither occurs nor fails: what stands for one that cannot be decoded.
#[tactic(auto, unfolding(format::specs::Fields::neither))]
fn neither() -> Atom
    ensures { result ≡ neither }
{
    Atom::Happens(Leaf {
        event: Event::Kind(0),
        lower: Bound::Open,
        upper: Bound::Open,
    })
}

// The leaf whose item, 03 or 08, starts at a place.
#[tactic(auto, unfolding(format::specs::Fields::leaf_from, format::specs::Fields::leaf_of))]
pub fn leaf_at(terms: &[u8], at: usize, item: Item) -> Atom
    requires { LeafAt terms.now at item }
    ensures { result ≡ leaf_from (leaf_item terms.now at item) }
{
    match item {
        Item::Count => count_at(terms, at).unwrap_or(neither()),
        _ => happening_at(terms, at).unwrap_or(neither()),
    }
}

// The expression of at most so many items at a place, by its item byte; none, if it cannot be read.
pub fn expression_at(terms: &[u8], spot: Spot) -> Option<Expression>
    ensures { ExpressionAt terms.now spot result }
{
    if spot.items == 0 {
        return None;
    }
    let item = item_at(terms, spot.at)?;
    let rest = spot.after(item);
    match item {
        Item::Leaf | Item::Count => {
            if terms.len() < rest.at {
                return None;
            }
            Some(Expression::Leaf(leaf_at(terms, spot.at, item)))
        }
        Item::And | Item::Or | Item::Except => {
            let second = read_expression(terms, rest)?;
            let _ = read_expression(terms, second)?;
            match item {
                Item::And => Some(Expression::And(rest, second)),
                Item::Or => Some(Expression::Or(rest, second)),
                _ => Some(Expression::Except(rest, second)),
            }
        }
        Item::Always => Some(Expression::Always),
        Item::Kind | Item::Schema => None,
    }
}

// The norm type that a byte names; one that names none, which refusal 3 turns away, is read as a power.
#[tactic(auto, unfolding(format::specs::Fields::norm_type_of))]
pub fn norm_type_of(byte: u8) -> NormType
    ensures { result ≡ norm_type_of byte }
{
    NormType::try_from(byte).unwrap_or(NormType::Power)
}

// Refusal 3 at the item 01 with a number.
pub fn kind_wrong(terms: &[u8], i: usize) -> bool
    requires { 5 * i + 5 ≤ length terms.now }
    ensures { result ≡ kind_wrong i (take 4 (drop (5 * i + 1) terms.now)) }
{
    let number = terms[5 * i + 1];
    let mask = u16_at(terms, 5 * i + 2);
    if usize::from(number) != i || mask == 0 {
        return true;
    }
    !carries(mask, terms[5 * i + 4])
}

// Refusal 3 at an event: no such form, or a kind that is not declared.
fn event_wrong(kinds: usize, form: u8, number: u8) -> bool
    ensures { (t : Terms) → kinds ≡ length t.kinds → result ≡ event_wrong t form number }
{
    match event_of(form, number) {
        Some(Event::Kind(kind)) => kinds <= usize::from(kind),
        Some(Event::StageOf(_, _)) => false,
        None => true,
    }
}

// Refusal 3 at the bound at a place, sign by sign.
fn bound_wrong(terms: &[u8], kinds: usize, at: usize) -> bool
    requires { at + 7 ≤ length terms.now }
    ensures { (t : Terms) → kinds ≡ length t.kinds → result ≡ bound_wrong t terms.now at }
{
    let Ok(sign) = Sign::try_from(terms[at]) else {
        return true;
    };
    let form = terms[at + 1];
    let number = terms[at + 2];
    let offset = u32_at(terms, at + 3);
    match sign {
        Sign::Plain => {
            if form != 0 || number != 0 {
                return true;
            }
            OFFSET_LIMIT < offset
        }
        Sign::Plus | Sign::Minus => event_wrong(kinds, form, number) || OFFSET_LIMIT < offset,
        Sign::Open => {
            if form != 0 || number != 0 {
                return true;
            }
            offset != 0
        }
    }
}

// Refusal 3 at the item 03 at a place; its lower bound is not open.
fn happening_wrong(terms: &[u8], kinds: usize, at: usize) -> bool
    requires { at + 17 ≤ length terms.now }
    ensures { (t : Terms) → kinds ≡ length t.kinds → result ≡ happening_wrong t (take 17 (drop at terms.now)) }
{
    if event_wrong(kinds, terms[at + 1], terms[at + 2]) {
        return true;
    }
    if terms[at + 3] == Sign::Open as u8 {
        return true;
    }
    if bound_wrong(terms, kinds, at + 3) {
        return true;
    }
    bound_wrong(terms, kinds, at + 10)
}

// Refusal 3 at the item 08 at a place; any threshold is in range, and no bound is open.
fn count_wrong(terms: &[u8], kinds: usize, at: usize) -> bool
    requires { at + 20 ≤ length terms.now }
    ensures { (t : Terms) → kinds ≡ length t.kinds → result ≡ count_wrong t (take 20 (drop at terms.now)) }
{
    let kind = terms[at + 1];
    if kinds <= usize::from(kind) {
        return true;
    }
    if terms[at + 6] == Sign::Open as u8 {
        return true;
    }
    if bound_wrong(terms, kinds, at + 6) {
        return true;
    }
    if terms[at + 13] == Sign::Open as u8 {
        return true;
    }
    bound_wrong(terms, kinds, at + 13)
}

// Refusal 3 at the leaf whose item, 03 or 08, starts at a place.
pub fn leaf_wrong(terms: &[u8], kinds: usize, at: usize, item: Item) -> bool
    requires { LeafAt terms.now at item }
    ensures { (t : Terms) → kinds ≡ length t.kinds → result ≡ leaf_wrong t (leaf_item terms.now at item) }
{
    match item {
        Item::Count => count_wrong(terms, kinds, at),
        _ => happening_wrong(terms, kinds, at),
    }
}
