// The reading of terms by item bytes and lengths alone: what stands where.
#![tactic(auto)]

mod outline;

ghost use Rattle.std.specs.Prelude.{◌≡◌, ℕ, ◌+◌, ◌*◌, ◌^◌, ◌<◌, ◌≤◌, length, drop};
ghost use Rattle.format.specs.Bytes.{byte_at, number_at, many, item};
ghost use Rattle.format.specs.Grammar.{kinds_limit, read_clause, file_of};
ghost use Rattle.grammar.specs.Items.{code_of, body_of, Names, ItemAt};
ghost use Rattle.grammar.specs.Found.{after_item, if_passed, Found, FoundExpr};
ghost use Rattle.grammar.specs.Places.{FoundSchema, LaidOut};

pub use outline::Outline;

// The most items of an expression, event kinds and schemas.
pub const EXPRESSION_LIMIT: usize = 31;

pub const KINDS_LIMIT: usize = 32;

pub const SCHEMAS_LIMIT: usize = 16;

// How many clauses that makes: three for each schema.
pub const RANKS: usize = 48;

// The items of terms, each by its item byte.
#[derive(Clone, Copy, Debug, PartialEq, Eq)]
pub enum Item {
    Kind = 1,
    Schema = 2,
    Leaf = 3,
    And = 4,
    Or = 5,
    Except = 6,
    Always = 7,
    Count = 8,
}

// A byte that names no item.
#[derive(Clone, Copy, Debug, PartialEq, Eq)]
pub struct UnknownItem(pub u8);

impl TryFrom<u8> for Item {
    type Error = UnknownItem;

    ghost try_from_gives = { Names };

    fn try_from(byte: u8) -> Result<Self, UnknownItem> {
        match byte {
            1 => Ok(Item::Kind),
            2 => Ok(Item::Schema),
            3 => Ok(Item::Leaf),
            4 => Ok(Item::And),
            5 => Ok(Item::Or),
            6 => Ok(Item::Except),
            7 => Ok(Item::Always),
            8 => Ok(Item::Count),
            _ => Err(UnknownItem(byte)),
        }
    }
}

impl Item {
    // How many bytes the item's body has.
    pub fn body(self) -> usize
        ensures { result ≡ body_of self }
    {
        match self {
            Item::Kind | Item::Schema => 4,
            Item::Leaf => 16,
            Item::Count => 19,
            Item::And | Item::Or | Item::Except | Item::Always => 0,
        }
    }
}

// A place of an expression, and how many items the expression may have; as an answer, the place after it, and how many items are left.
#[derive(Clone, Copy, Debug, PartialEq, Eq)]
pub struct Spot {
    pub at: usize,
    pub items: usize,
}

impl Spot {
    // The spot after an item, which is one of those that the expression may have.
    pub fn after(self, item: Item) -> Spot
        requires kind_byte { self.at < 2 ^ 63 }
        requires items { 0 < self.items }
        ensures { result ≡ after_item self item }
    {
        Spot {
            at: self.at + 1 + item.body(),
            items: self.items - 1,
        }
    }
}

// Where the clauses of a schema start, and where the last one ends.
#[derive(Clone, Copy, Debug, PartialEq, Eq)]
struct Clauses {
    create: usize,
    detach: usize,
    consequent: usize,
    end: usize,
}

// What is read of terms: how many kinds and schemas, where the bytes left unread start, and where the clause of each rank starts.
#[derive(Clone, Copy, Debug, PartialEq, Eq)]
pub struct Layout {
    pub kinds: usize,
    pub schemas: usize,
    pub rest: usize,
    pub starts: [usize; RANKS],
}

// The byte at a place; past the end it is 0.
#[tactic(auto, unfolding(format::specs::Bytes::byte_at))]
pub fn byte_at(s: &[u8], at: usize) -> u8
    ensures { result ≡ byte_at s.now at }
{
    if at < s.len() { s[at] } else { 0 }
}

// The number in two bytes.
#[tactic(auto, unfolding(format::specs::Bytes::byte_at), using(format::proofs::PlaceLaws::number_two))]
pub fn u16_at(s: &[u8], at: usize) -> u16
    requires { at + 2 ≤ length s.now }
    ensures { result ≡ number_at 2 s.now at }
{
    u16::from_le_bytes([s[at], s[at + 1]])
}

// The number in four bytes.
#[tactic(auto, unfolding(format::specs::Bytes::byte_at), using(format::proofs::PlaceLaws::number_four))]
pub fn u32_at(s: &[u8], at: usize) -> u32
    requires { at + 4 ≤ length s.now }
    ensures { result ≡ number_at 4 s.now at }
{
    u32::from_le_bytes([s[at], s[at + 1], s[at + 2], s[at + 3]])
}

// The item that the byte at a place names, if it names one.
pub fn item_at(s: &[u8], at: usize) -> Option<Item>
    ensures { ItemAt s.now at result }
{
    Item::try_from(byte_at(s, at)).ok()
}

// The end of an item that starts at a place, whatever its body holds.
fn item_end(s: &[u8], at: usize, kind: Item) -> Option<usize>
    requires { (at < length s.now) × (code_of kind ≡ byte_at s.now at) }
    ensures { Found (item (code_of kind) (body_of kind)) s.now at result }
{
    let body = kind.body();
    if s.len() - at - 1 < body {
        return None;
    }
    Some(at + 1 + body)
}

// The end of an item of a kind, if it stands at a place.
fn read_item(s: &[u8], at: usize, kind: Item) -> Option<usize>
    ensures { Found (item (code_of kind) (body_of kind)) s.now at result }
{
    if s.len() <= at || s[at] != kind as u8 {
        return None;
    }
    item_end(s, at, kind)
}

// Moves a spot past the expression that stands there: a leaf, a count, always, or a connective and its two operands. Whether one stands there.
fn pass_expression(s: &[u8], spot: &mut Spot) -> bool
    ensures { (n : ℕ) → spot.old.items ≤ n → FoundExpr n spot.old.items s.now spot.old.at (if_passed result spot.new) }
{
    let start = *spot;
    if start.items == 0 {
        return false;
    }
    let Some(item) = item_at(s, start.at) else {
        return false;
    };
    match item {
        Item::Leaf | Item::Always | Item::Count => {
            let Some(at) = item_end(s, start.at, item) else {
                return false;
            };
            *spot = Spot {
                at,
                items: start.items - 1,
            };
            true
        }
        Item::And | Item::Or | Item::Except => {
            *spot = start.after(item);
            if !pass_expression(s, spot) {
                return false;
            }
            pass_expression(s, spot)
        }
        Item::Kind | Item::Schema => false,
    }
}

// The spot after the expression that stands at one.
pub fn read_expression(s: &[u8], spot: Spot) -> Option<Spot>
    ensures { (n : ℕ) → spot.items ≤ n → FoundExpr n spot.items s.now spot.at result }
{
    let mut end = spot;
    if pass_expression(s, &mut end) {
        Some(end)
    } else {
        None
    }
}

// A clause: an expression of at most 31 items.
fn read_clause(s: &[u8], at: usize) -> Option<usize>
    ensures { Found read_clause s.now at result }
{
    let end = read_expression(
        s,
        Spot {
            at,
            items: EXPRESSION_LIMIT,
        },
    )?;
    Some(end.at)
}

// A schema: its head, then create, detach and consequent.
fn read_schema(s: &[u8], at: usize) -> Option<Clauses>
    ensures { FoundSchema s.now at result }
{
    let create = read_item(s, at, Item::Schema)?;
    let detach = read_clause(s, create)?;
    let consequent = read_clause(s, detach)?;
    let end = read_clause(s, consequent)?;
    Some(Clauses {
        create,
        detach,
        consequent,
        end,
    })
}

// How many kinds stand at the front.
fn count_kinds(s: &[u8]) -> usize
    ensures { (result ≡ length (file_of s.now).kinds) × (drop (5 * result) s.now ≡ (many (item 1 4) kinds_limit s.now).1) × (5 * result ≤ length s.now) }
{
    for n in 0..KINDS_LIMIT {
        let Some(_) = read_item(s, 5 * n, Item::Kind) else {
            return n;
        };
    }
    KINDS_LIMIT
}

// The kinds, then the schemas, as far as they go.
pub fn read_layout(s: &[u8]) -> Layout
    ensures { LaidOut s.now result }
{
    let kinds = count_kinds(s);
    let mut layout = Layout {
        kinds,
        schemas: 0,
        rest: 5 * kinds,
        starts: [0; RANKS],
    };
    for n in 0..SCHEMAS_LIMIT {
        let Some(found) = read_schema(s, layout.rest) else {
            return layout;
        };
        layout.starts[3 * n] = found.create;
        layout.starts[3 * n + 1] = found.detach;
        layout.starts[3 * n + 2] = found.consequent;
        layout.rest = found.end;
        layout.schemas = n + 1;
    }
    layout
}
