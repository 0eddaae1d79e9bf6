// Call 1, check terms: the grammar, then fields, citations and shared attributes, each over the whole file.
#![tactic(auto)]

ghost use Rattle.std.specs.Prelude.{◌≡◌, Bool, List, ◌∷◌, ◌++◌, ℕ, ◌<◌, get_or};
ghost use Rattle.meaning.specs.declared.Event.{Event};
ghost use Rattle.meaning.specs.Lists.{numbers_from, any_of};
ghost use Rattle.meaning.specs.Terms.{Expr, schema_at, kind_of, rank, bound_events, leaf_events};
ghost use Rattle.format.specs.Grammar.{file_of, breaks_grammar};
ghost use Rattle.format.specs.Fields.{schema_wrong, cites_too_high, unshared_in, field_wrong, cites_from, shares_none, terms_of};
ghost use Rattle.calls.specs.Answers.{checked_answer};
ghost use Rattle.calls.specs.Calls.{check_terms};
ghost use Rattle.grammar.specs.Found.{StandsExpr};
ghost use Rattle.grammar.specs.Places.{no_items};
ghost use Rattle.fields.specs.Decoded.{LeafAt, leaf_item};
ghost use Rattle.terms.specs.Questions.{leaf_cites, leaf_unshared, MayAsk, Asks, clause_has, Walks, clauses_have, ClauseAt};

use calls::Refusal;
use fields::{Places, leaf_wrong};
use grammar::{EXPRESSION_LIMIT, Item, Outline, Spot, item_at};
use meaning::{Atom, Bound, Event, Stage};

// The most bytes of terms.
pub const TERMS_LIMIT: usize = 16384;

// The rank of a stage: that of the last clause on which it depends.
#[tactic(auto, unfolding(meaning::specs::Terms::rank))]
pub fn rank(stage: Stage, schema: u8) -> usize
    ensures { result ≡ rank stage schema }
{
    let create = 3 * usize::from(schema);
    match stage {
        Stage::Created => create,
        Stage::Detached => create + 1,
        Stage::Expired => create + 1,
        Stage::Discharged => create + 2,
        Stage::Violated => create + 2,
    }
}

// Whether an event cites a stage that does not rank below k.
#[tactic(auto, unfolding(format::specs::Fields::cites_from))]
fn cites_from(k: usize, event: Event) -> bool
    ensures { result ≡ cites_from k event }
{
    match event {
        Event::Kind(_) => false,
        Event::StageOf(stage, schema) => k <= rank(stage, schema),
    }
}

// Whether the event of a bound passes a test, if it has one.
fn bound_has<F: Fn(Event) -> bool>(bound: Bound, test: &F) -> bool
    requires { (e : Event) → F.pre test.now e }
    ensures { (p : Event → Bool) → ((e : Event) (b : Bool) → F.post test.now e b → b ≡ p e) → result ≡ any_of p (bound_events bound) }
{
    match bound {
        Bound::Plus(event, _) | Bound::Minus(event, _) => test(event),
        Bound::Plain(_) | Bound::Open => false,
    }
}

// Whether an event, or one of its window's bounds', passes a test.
fn window_has<F: Fn(Event) -> bool>(event: Event, lower: Bound, upper: Bound, test: &F) -> bool
    requires { (e : Event) → F.pre test.now e }
    ensures { (p : Event → Bool) → ((e : Event) (b : Bool) → F.post test.now e b → b ≡ p e) → result ≡ any_of p (event ∷ (bound_events lower ++ bound_events upper)) }
{
    if test(event) {
        return true;
    }
    if bound_has(lower, test) {
        return true;
    }
    bound_has(upper, test)
}

// Whether some event of a leaf passes a test: what it waits for or counts, or one of its bounds'.
fn some_event_has<F: Fn(Event) -> bool>(leaf: Atom, test: &F) -> bool
    requires { (e : Event) → F.pre test.now e }
    ensures { (p : Event → Bool) → ((e : Event) (b : Bool) → F.post test.now e b → b ≡ p e) → result ≡ any_of p (leaf_events leaf) }
{
    match leaf {
        Atom::Happens(x) => window_has(x.event, x.lower, x.upper, test),
        Atom::Counts(x) => {
            let event = Event::Kind(x.kind);
            window_has(event, x.lower, x.upper, test)
        }
    }
}

// Whether some event of the leaf whose item, 03 or 08, starts at a place cites a stage that does not rank below a clause.
fn leaf_cites(terms: &[u8], rank: usize, at: usize, item: Item) -> bool
    requires { LeafAt terms.now at item }
    ensures { result ≡ leaf_cites rank (leaf_item terms.now at item) }
{
    let leaf = fields::leaf_at(terms, at, item);
    some_event_has(leaf, &|event| cites_from(rank, event))
}

// Whether some leaf of an expression passes a test of its clause's rank, its place and its item: none, if one does; or else where the expression
// ends, and how many items are left.
fn expression_has<F: Fn(usize, usize, Item) -> bool>(
    terms: &[u8],
    rank: usize,
    spot: Spot,
    test: &F,
) -> Option<Spot>
    requires { StandsExpr terms.now spot.at spot.items × MayAsk terms.now (F.pre test.now rank) }
    ensures { Walks terms.now (Asks terms.now (F.post test.now rank)) spot.at spot.items result }
{
    let item = item_at(terms, spot.at)?;
    let rest = spot.after(item);
    match item {
        Item::Leaf | Item::Count => {
            if test(rank, spot.at, item) {
                return None;
            }
            Some(rest)
        }
        Item::And | Item::Or | Item::Except => {
            let second = expression_has(terms, rank, rest, test)?;
            expression_has(terms, rank, second, test)
        }
        Item::Always | Item::Kind | Item::Schema => Some(rest),
    }
}

// Whether some number below a limit passes a test.
fn some_below<F: Fn(usize) -> bool>(limit: usize, test: F) -> bool
    requires { (n : ℕ) → n < limit → F.pre test n }
    ensures { (p : ℕ → Bool) → ((n : ℕ) (b : Bool) → n < limit → F.post test n b → b ≡ p n) → result ≡ any_of p (numbers_from 0 limit) }
{
    for n in 0..limit {
        if test(n) {
            return true;
        }
    }
    false
}

// Whether an event's kind and the subject kind have no attribute in common.
fn shares_none(places: Places<'_>, subject: u8, event: Event) -> bool
    ensures { result ≡ shares_none (terms_of places.entry.terms.now) subject event }
{
    let kinds = places.kinds();
    kinds.mask_of(places.kind_of(event)) & kinds.mask_of(subject) == 0
}

// Whether the kind of some event of the leaf whose item, 03 or 08, starts at a place shares nothing with the subject kind.
fn leaf_unshared(places: Places<'_>, subject: u8, at: usize, item: Item) -> bool
    requires { LeafAt places.terms.now at item }
    ensures { result ≡ leaf_unshared (terms_of places.entry.terms.now) subject (leaf_item places.entry.terms.now at item) }
{
    let leaf = fields::leaf_at(places.terms, at, item);
    some_event_has(leaf, &|event| shares_none(places, subject, event))
}

// Whether some leaf of the clause of a rank passes a test.
fn clause_has<F: Fn(usize, usize, Item) -> bool>(places: Places<'_>, rank: usize, test: &F) -> bool
    requires clause { (rank < 48) × ((x : Expr (List ℕ)) × ClauseAt places.terms.now (get_or places.starts.now rank 0) x) }
    requires test { MayAsk places.terms.now (F.pre test.now rank) }
    ensures { (p : List ℕ → Bool) → Asks places.entry.terms.now (F.post test.now rank) p → (x : Expr (List ℕ)) → ClauseAt places.entry.terms.now (get_or places.entry.starts.now rank 0) x → result ≡ clause_has p x }
{
    let clause = Spot {
        at: places.start(rank),
        items: EXPRESSION_LIMIT,
    };
    expression_has(places.terms, rank, clause, test).is_none()
}

// Whether some leaf of the schema with a number passes a test: its clauses rank 3n, 3n + 1 and 3n + 2.
fn clauses_have<F: Fn(usize, usize, Item) -> bool>(places: Places<'_>, n: usize, test: &F) -> bool
    requires schema { n < places.schemas }
    requires test { (rank : ℕ) → rank < 48 → MayAsk places.terms.now (F.pre test.now rank) }
    ensures { (p : ℕ → List ℕ → Bool) → ((rank : ℕ) → rank < 48 → Asks places.entry.terms.now (F.post test.now rank) (p rank)) → result ≡ clauses_have places.entry.terms.now p n }
{
    if clause_has(places, 3 * n, test) {
        return true;
    }
    if clause_has(places, 3 * n + 1, test) {
        return true;
    }
    clause_has(places, 3 * n + 2, test)
}

// Refusal 3 at the schema with a number.
fn schema_wrong(places: Places<'_>, n: usize) -> bool
    requires { n < places.schemas }
    ensures { result ≡ schema_wrong (terms_of places.entry.terms.now) (get_or (file_of places.entry.terms.now).schemas n no_items) }
{
    if places.kinds().head_wrong(places.head_at(n)) {
        return true;
    }
    clauses_have(
        places,
        n,
        &|_, at, item| leaf_wrong(places.terms, places.kinds, at, item),
    )
}

// Refusal 4 at the schema with a number.
fn schema_cites(places: Places<'_>, n: usize) -> bool
    requires { n < places.schemas }
    ensures { result ≡ cites_too_high (terms_of places.entry.terms.now) n }
{
    clauses_have(
        places,
        n,
        &|rank, at, item| leaf_cites(places.terms, rank, at, item),
    )
}

// Refusal 5 at the schema with a number.
fn schema_unshared(places: Places<'_>, n: usize) -> bool
    requires { n < places.schemas }
    ensures { result ≡ unshared_in (terms_of places.entry.terms.now) (schema_at (terms_of places.entry.terms.now) n) }
{
    let subject = places.subject_of(n);
    clauses_have(
        places,
        n,
        &|_, at, item| leaf_unshared(places, subject, at, item),
    )
}

// Refusal 3 anywhere in the file.
fn field_wrong(places: Places<'_>) -> bool
    ensures { result ≡ field_wrong (file_of places.entry.terms.now) }
{
    if some_below(places.kinds, |i| fields::kind_wrong(places.terms, i)) {
        return true;
    }
    some_below(places.schemas, |n| schema_wrong(places, n))
}

// Refusal 2: no kind, no schema, or bytes left unread.
fn breaks_grammar(outline: &Outline<'_>) -> bool
    ensures { result ≡ breaks_grammar (file_of outline.now.terms.now) }
{
    let layout = &outline.layout;
    if layout.kinds == 0 || layout.schemas == 0 {
        return true;
    }
    layout.rest < outline.terms.len()
}

// Call 1, under an outline of the terms: callers that go on with it read it once.
pub fn check_terms_under(outline: &Outline<'_>) -> Result<(), Refusal>
    ensures { checked_answer result ≡ check_terms outline.now.terms.now }
{
    let places = Places::of(outline);
    if TERMS_LIMIT < outline.terms.len() {
        return Err(Refusal::TermsTooLong);
    }
    if breaks_grammar(outline) {
        return Err(Refusal::BrokenGrammar);
    }
    if field_wrong(places) {
        return Err(Refusal::FieldOutOfRange);
    }
    if some_below(places.schemas, |n| schema_cites(places, n)) {
        return Err(Refusal::CitationTooHigh);
    }
    if some_below(places.schemas, |n| schema_unshared(places, n)) {
        return Err(Refusal::NothingShared);
    }
    Ok(())
}

// Call 1: check terms.
pub fn check_terms(terms: &[u8]) -> Result<(), Refusal>
    ensures { checked_answer result ≡ check_terms terms.now }
{
    check_terms_under(&Outline::of(terms))
}
