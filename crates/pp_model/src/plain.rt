//! The plain map: one caller, and its pairs in one sorted vector.

ghost use Rattle.std.specs.Prelude.{◌≡◌, ℕ, ◌+◌, ◌-◌, ◌<◌, ◌≤◌, false, [], ◌∷◌, ◌++◌, Ok, Some, length, map, insert};
ghost use Rattle.std.specs.Prelude.{vec_capacity, IfOk, IfErr};
ghost use Rattle.pp_model.specs.declared.Answer.TheVariants.{Said};
ghost use Rattle.pp_model.specs.declared.Call.TheVariants as Call;
ghost use Rattle.pp_model.specs.declared.Reply.TheVariants as Reply;
ghost use Rattle.pp_model.specs.Lists.{AtEach, upto};
ghost use Rattle.pp_model.specs.FiniteMap.{find, KeysRise, HasKeyAt, LacksKeyAt};
ghost use Rattle.pp_model.specs.Calls.{reply, changes, Takes};
ghost use Rattle.pp_model.specs.History.{contents_of};
ghost use Rattle.pp_model.specs.Pass.{IsFresh};
ghost use Rattle.pp_model.specs.MapCalls.{IsClosing, IsClean, get_answer, insert_answer, remove_answer, cut_answer};
ghost use Rattle.pp_model.specs.Plain.{PlainUnderWay, PlainLearnable, PlainBelongs, IsPlainAnswer, plain_meaning, plain_sizes};
ghost use Rattle.pp_model.specs.Plain.{plain_going, plain_note, plain_run};
ghost use Rattle.pp_model.specs.PlainLaws.{plain_stands, plain_learns_later, plain_others_learn};

use crate::{
    Answer, Call, CloseFault, Closed, Cut, InsertFault, Inserted, Lost, MapCalls, NoMemory, Pair,
    Placed, Reply, Turned,
};
use std::alloc::Global;
use std::marker::Model;

/// A map for one caller.
#[derive(Drop)]
pub struct PlainMap {
    records: u32,
}

impl Model for PlainMap {
    ghost use Rattle.pp_model.specs.Pass.{MapSizes};

    ghost Value = { MapSizes };

    ghost use Rattle.pp_model.specs.Plain.{plain_sizes};

    ghost view = { λ map. plain_sizes map.records };
}

/// The one pass of a plain map. It has the map's pairs, and the list of the calls that were answered by a reply.
#[derive(Drop)]
pub struct PlainPass {
    records: u32,
    calls: u32,
    pairs: Vec<Pair>,
    placed: Vec<Placed>,
    changes: u64,
}

impl Model for PlainPass {
    ghost use Rattle.pp_model.specs.Pass.{PassView};

    ghost Value = { PassView };

    ghost use Rattle.pp_model.specs.PlainModel.{plain_view, PlainIsWhole};

    ghost view = { plain_view };

    ghost invariant = { PlainIsWhole };
}

/// A call of a plain map that was begun. Its one turn makes it whole.
#[derive(Drop)]
pub struct PlainGoing {
    call: Call,
    races: u64,
    start: u64,
    struck: bool,
}

/// What a closed plain map keeps of its run: its number of records, and the calls that were answered by a reply.
#[derive(Drop)]
pub struct PlainKept {
    records: u32,
    placed: Vec<Placed>,
}

impl PlainMap {
    /// A map of so many records, empty, with its one pass, which has room for so many calls.
    ///
    /// # Errors
    ///
    /// There was no memory.
    pub fn start(alloc: Global, records: u32, calls: u32) -> Result<(PlainMap, PlainPass), NoMemory>
        ensures sizes { IfOk result (λ s. s.0 ≡ plain_sizes records) }
        ensures fresh { IfOk result (λ s. IsFresh s.1) }
        ensures caller { IfOk result (λ s. s.1.caller ≡ 0) }
        ensures room { IfOk result (λ s. s.1.room ≡ calls) }
        ensures share { IfOk result (λ s. s.1.share ≡ records) }
        ensures free { IfOk result (λ s. s.1.free ≡ upto 1 records) }
        ensures belongs { IfOk result (λ s. PlainBelongs records s.1) }
        ensures clean { IfOk result (λ s. IsClean plain_meaning s.0 s.1) }
    {
        let pairs = reserved(alloc, records)?;
        let placed = reserved(alloc, calls)?;
        let pass = PlainPass {
            records,
            calls,
            pairs,
            placed,
            changes: 0,
        };
        Ok((PlainMap { records }, pass))
    }
}

impl PlainGoing {
    /// The lost turns of the call, which are none: there is no other caller.
    pub fn lost(&self) -> u64
        ensures { result ≡ 0 }
    {
        0
    }
}

impl PlainPass {
    fn get(&mut self, key: u64) -> Option<u128>
        requires { 1 ≤ self.old.room }
        ensures { IsPlainAnswer (Call.Get key) self.old self.new (get_answer (Ok result)) }
    {
        match spot(&self.pairs, key) {
            Ok(i) => {
                let value = self.pairs[i].value;
                self.enter(Call::Get { key }, Reply::Value(value));
                Some(value)
            }
            Err(_) => {
                self.enter(Call::Get { key }, Reply::Absent);
                None
            }
        }
    }

    fn insert(&mut self, key: u64, value: u128) -> Result<Inserted, InsertFault>
        requires { 1 ≤ self.old.room }
        ensures { IsPlainAnswer (Call.Insert key value) self.old self.new (insert_answer result) }
    {
        match spot(&self.pairs, key) {
            Ok(i) => {
                let held = self.pairs[i].value;
                self.enter(Call::Insert { key, value }, Reply::Held(held));
                Ok(Inserted::Held(held))
            }
            Err(i) => {
                if self.pairs.len() == self.records as usize {
                    return Err(InsertFault::Full);
                }
                self.add(i, Pair { key, value });
                Ok(Inserted::Added)
            }
        }
    }

    fn remove(&mut self, key: u64) -> Option<u128>
        requires { 1 ≤ self.old.room }
        ensures { IsPlainAnswer (Call.Remove key) self.old self.new (remove_answer (Ok result)) }
    {
        match spot(&self.pairs, key) {
            Ok(i) => Some(self.take(i, key, Call::Remove { key })),
            Err(_) => {
                self.enter(Call::Remove { key }, Reply::Absent);
                None
            }
        }
    }

    fn cut(&mut self, key: u64, value: u128) -> Cut
        requires { 1 ≤ self.old.room }
        ensures { IsPlainAnswer (Call.Cut key value) self.old self.new (cut_answer value (Ok result)) }
    {
        match spot(&self.pairs, key) {
            Ok(i) => {
                let held = self.pairs[i].value;
                if held == value {
                    self.take(i, key, Call::Cut { key, value });
                    return Cut::Took;
                }
                self.enter(Call::Cut { key, value }, Reply::Other(held));
                Cut::Other(held)
            }
            Err(_) => {
                self.enter(Call::Cut { key, value }, Reply::Absent);
                Cut::Absent
            }
        }
    }

    fn answer(&mut self, call: Call) -> Answer
        requires { 1 ≤ self.old.room }
        ensures { IsPlainAnswer call self.old self.new result }
    {
        match call {
            Call::Get { key } => match self.get(key) {
                Some(value) => Answer::Said(Reply::Value(value)),
                None => Answer::Said(Reply::Absent),
            },
            Call::Insert { key, value } => match self.insert(key, value) {
                Ok(Inserted::Added) => Answer::Said(Reply::Added),
                Ok(Inserted::Held(held)) => Answer::Said(Reply::Held(held)),
                Err(InsertFault::Full) => Answer::Full,
                Err(InsertFault::Lost { turns }) => Answer::Lost { turns },
            },
            Call::Remove { key } => match self.remove(key) {
                Some(value) => Answer::Said(Reply::Took(value)),
                None => Answer::Said(Reply::Absent),
            },
            Call::Cut { key, value } => match self.cut(key, value) {
                Cut::Took => Answer::Said(Reply::Took(value)),
                Cut::Other(held) => Answer::Said(Reply::Other(held)),
                Cut::Absent => Answer::Said(Reply::Absent),
            },
        }
    }

    // Enters a call that changes nothing.
    fn enter(&mut self, call: Call, said: Reply)
        requires room { 1 ≤ self.old.room }
        requires right { reply (contents_of self.old.seen) call ≡ said }
        requires unchanged { changes said ≡ false }
        ensures { IsPlainAnswer call self.old self.new (Said said) }
    {
        let placed = Placed {
            call,
            reply: said,
            place: self.changes,
        };
        push_reserved(&mut self.placed, placed);
    }

    // Adds a pair whose key is absent, and enters the insert.
    fn add(&mut self, i: usize, pair: Pair)
        requires room { 1 ≤ self.old.room }
        requires lacks { LacksKeyAt (contents_of self.old.seen) pair.key i }
        requires few { length (contents_of self.old.seen) < self.old.share }
        ensures { IsPlainAnswer (Call.Insert pair.key pair.value) self.old self.new (Said Reply.Added) }
    {
        insert_reserved(&mut self.pairs, i, pair);
        self.changes += 1;
        let placed = Placed {
            call: Call::Insert {
                key: pair.key,
                value: pair.value,
            },
            reply: Reply::Added,
            place: self.changes,
        };
        push_reserved(&mut self.placed, placed);
    }

    // Takes the pair of a key away, and enters the call that does so.
    fn take(&mut self, i: usize, key: u64, call: Call) -> u128
        requires room { 1 ≤ self.old.room }
        requires has { HasKeyAt (contents_of self.old.seen) key i }
        requires takes { (w : ℕ) → find (contents_of self.old.seen) key ≡ Some w → Takes call key w }
        ensures takes { Takes call key result }
        ensures answered { IsPlainAnswer call self.old self.new (Said (Reply.Took result)) }
    {
        let value = self.pairs.remove(i).value;
        self.changes += 1;
        let placed = Placed {
            call,
            reply: Reply::Took(value),
            place: self.changes,
        };
        push_reserved(&mut self.placed, placed);
        value
    }
}

impl MapCalls for PlainMap {
    type Pass = PlainPass;

    type Going = PlainGoing;

    type Note = u64;

    type Witness = PlainKept;

    ghost meaning = { plain_meaning };

    ghost sizes = { λ map. plain_sizes map.records };

    ghost pass_view = { λ pass. pass };

    ghost going_view = { λ pass going. plain_going going.call going.races going.start going.struck };

    ghost note_view = { λ note. plain_note note };

    ghost run_view = { λ kept. plain_run kept.records kept.placed.items };

    ghost Idle = { λ pass. Unit {0} };

    ghost Belongs = { λ map pass. PlainBelongs map.records pass };

    ghost UnderWay = { λ map pass going before. PlainUnderWay going.call going.races going.start going.struck pass before };

    ghost Learnable = { λ map pass note. PlainLearnable pass note };

    fn get(&self, pass: &mut PlainPass, key: u64, _races: u64) -> Result<Option<u128>, Lost> {
        Ok(pass.get(key))
    }

    fn insert(
        &self,
        pass: &mut PlainPass,
        key: u64,
        value: u128,
        _races: u64,
    ) -> Result<Inserted, InsertFault> {
        pass.insert(key, value)
    }

    fn remove(&self, pass: &mut PlainPass, key: u64, _races: u64) -> Result<Option<u128>, Lost> {
        Ok(pass.remove(key))
    }

    fn cut(&self, pass: &mut PlainPass, key: u64, value: u128, _races: u64) -> Result<Cut, Lost> {
        Ok(pass.cut(key, value))
    }

    fn begin(&self, pass: &mut PlainPass, call: Call, races: u64) -> PlainGoing {
        PlainGoing {
            call,
            races,
            start: pass.changes,
            struck: false,
        }
    }

    fn turn(&self, pass: &mut PlainPass, going: &mut PlainGoing) -> Turned {
        let answer = pass.answer(going.call);
        going.struck = answer.took_effect();
        Turned::Done(answer)
    }

    fn finish(&self, _going: PlainGoing) {}

    fn struck(&self, going: &PlainGoing) -> bool {
        going.struck
    }

    fn note(&self, pass: &mut PlainPass) -> u64 {
        pass.changes
    }

    fn learn(&self, pass: &mut PlainPass, _note: u64) {
        let _seen = pass.changes;
    }

    fn close(
        self,
        alloc: Global,
        passes: Vec<PlainPass>,
    ) -> Result<Closed<PlainKept>, CloseFault<PlainMap, PlainPass>>
        requires all { length passes.items ≡ (plain_sizes self.records).passes }
        requires each { AtEach passes.items (λ k p. PlainBelongs self.records p × Unit {0} × (p.caller ≡ k)) }
        ensures closed { IfOk result (λ c. IsClosing plain_meaning (plain_sizes self.records) (map (λ p. p) passes.items)
            c.contents.items c.free.items (plain_run c.witness.records c.witness.placed.items)) }
        ensures back { IfErr result (λ e. (e.map ≡ self) × (e.passes.items ≡ passes.items)) }
    {
        let mut passes = passes;
        let kept = passes[0].pairs.len();
        let Ok(free) = numbers(alloc, kept, self.records) else {
            return Err(CloseFault { map: self, passes });
        };
        let Some(pass) = passes.pop() else {
            unreachable!();
        };
        let PlainPass {
            records,
            pairs,
            placed,
            ..
        } = pass;
        Ok(Closed::new(pairs, free, PlainKept { records, placed }))
    }

    ghost stands = { plain_stands };

    ghost learns_later = { plain_learns_later };

    ghost others_learn = { plain_others_learn };
}

// Where a key stands among sorted pairs, or else at which position it would stand.
fn spot(pairs: &[Pair], key: u64) -> Result<usize, usize>
    requires { KeysRise pairs.now }
    ensures found { IfOk result (HasKeyAt pairs.now key) }
    ensures absent { IfErr result (LacksKeyAt pairs.now key) }
{
    pairs.binary_search_by_key(&key, |pair| pair.key)
}

// An empty vector with room for so many items.
fn reserved<T>(alloc: Global, count: u32) -> Result<Vec<T>, NoMemory>
    ensures empty { IfOk result (λ v. v.items ≡ []) }
    ensures room { IfOk result (λ v. vec_capacity v ≡ count) }
{
    match Vec::with_capacity(alloc, count as usize) {
        Ok(list) => Ok(list),
        Err(_) => Err(NoMemory),
    }
}

// Appends an item where there is room.
fn push_reserved<T: Drop>(list: &mut Vec<T>, item: T)
    requires { length list.old.items < vec_capacity list.old }
    ensures items { list.new.items ≡ list.old.items ++ item ∷ [] }
    ensures room { vec_capacity list.old ≤ vec_capacity list.new }
{
    let pushed = list.push(item);
    prove!(pushed.is_ok());
    let _ = pushed;
}

// Inserts a pair where there is room.
fn insert_reserved(pairs: &mut Vec<Pair>, i: usize, pair: Pair)
    requires within { i ≤ length pairs.old.items }
    requires room { length pairs.old.items < vec_capacity pairs.old }
    ensures items { pairs.new.items ≡ insert pairs.old.items i pair }
    ensures room { vec_capacity pairs.old ≤ vec_capacity pairs.new }
{
    let inserted = pairs.insert(i, pair);
    prove!(inserted.is_ok());
    let _ = inserted;
}

// The numbers above the first one, up to the second.
fn numbers(alloc: Global, first: usize, last: u32) -> Result<Vec<u32>, NoMemory>
    requires { first ≤ last }
    ensures { IfOk result (λ v. v.items ≡ upto (first + 1) (last - first)) }
{
    let below = first as u32;
    let mut numbers = reserved(alloc, last - below)?;
    for n in below..last {
        push_reserved(&mut numbers, n + 1);
    }
    Ok(numbers)
}
