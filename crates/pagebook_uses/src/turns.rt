// Two words that change in turn: each says how often its player hit, and a player hits only when it is its turn.
// Neither takes a lock, and none is told more than the two words say.
ghost use Rattle.std.specs.Prelude.{◌≡◌, suc, ◌+◌, ◌≤◌, true, false, [], ◌∷◌};
ghost use Rattle.pagebook_uses.specs.Turns.{rally};

use pagebook::{Opening, Pens, Play, Rule, Seen, Word};
use std::thread::{Threads, join};

/// An entry of the log: which player hit.
#[derive(Clone, Copy)]
pub enum Hit {
    Ping,
    Pong,
}

/// The rule: the log is a rally, in which no player hits twice in a row. A page says how often its player hit, as
/// its word does.
pub struct InTurn;

impl Rule<Hit, u64> for InTurn {
    ghost use Rattle.pagebook_uses.specs.Turns.{IsRally};

    ghost holds = { λ ns ps log. IsRally ns ps log };
}

impl Opening<(), Hit, u64> for InTurn {
    ghost use Rattle.std.specs.Prelude.{[], ◌∷◌};

    ghost words = { λ x. 0 ∷ 0 ∷ [] };

    ghost pages = { λ x. 0 ∷ 0 ∷ [] };

    ghost log = { λ x. [] };
}

struct Looks;

impl Play<u64, Hit, u64> for Looks {
    ghost use Rattle.pagebook_uses.specs.Turns.{Looked};

    ghost then = { Looked };
}

struct LooksBack;

impl Play<u64, Hit, u64> for LooksBack {
    ghost use Rattle.pagebook_uses.specs.Turns.{LookedBack};

    ghost then = { LookedBack };
}

struct Pings;

impl Play<u64, Hit, u64> for Pings {
    ghost use Rattle.pagebook_uses.specs.Turns.{Pinged};

    ghost then = { Pinged };
}

struct Pongs;

impl Play<u64, Hit, u64> for Pongs {
    ghost use Rattle.pagebook_uses.specs.Turns.{Ponged};

    ghost then = { Ponged };
}

struct Ends;

impl Play<(u64, u64), Hit, u64> for Ends {
    ghost use Rattle.pagebook_uses.specs.Turns.{Ended};

    ghost then = { Ended };
}

/// The two words, which both players share.
#[derive(Drop)]
pub struct Table {
    pub pings: Word<Hit, u64, InTurn>,
    pub pongs: Word<Hit, u64, InTurn>,
    pub ghost keys: { (pings.key ≡ 0) × (pongs.key ≡ 1) },
    pub ghost book: { pongs.book ≡ pings.book },
}

/// The player who begins. It alone changes its page.
#[derive(Drop)]
pub struct Pinger {
    pub hits: u64,
    pub pens: Pens<u64>,
    pub seen: Seen<Hit, u64, InTurn>,
    pub ghost held: { pens.held ≡ (0, hits) ∷ [] },
    pub ghost book: { seen.book ≡ pens.book },
}

/// The other player.
#[derive(Drop)]
pub struct Ponger {
    pub hits: u64,
    pub pens: Pens<u64>,
    pub seen: Seen<Hit, u64, InTurn>,
    pub ghost held: { pens.held ≡ (1, hits) ∷ [] },
    pub ghost book: { seen.book ≡ pens.book },
}

/// A table at which nobody has hit, and its two players.
pub fn start() -> (Table, Pinger, Ponger)
    ensures players { (result.1.pens.book ≡ result.0.pings.book) × (result.2.pens.book ≡ result.0.pings.book) }
    ensures hits { (result.1.hits ≡ 0) × (result.2.hits ≡ 0) }
{
    let (mut blanks, seen, mut pens) = Word::open::<(), InTurn>(&());
    let pings = Word::new(0, &mut blanks);
    let pongs = Word::new(0, &mut blanks);
    let second = pens.split_off(1);
    let others = seen.again();
    (
        Table { pings, pongs },
        Pinger {
            hits: 0,
            pens,
            seen,
        },
        Ponger {
            hits: 0,
            pens: second,
            seen: others,
        },
    )
}

impl Pinger {
    /// Hits if it is its turn: whether it did.
    ///
    /// Asked for: the table is of its book.
    pub fn hit(&mut self, table: &Table) -> bool
        requires { self.old.pens.book ≡ table.now.pings.book }
        ensures book { self.new.pens.book ≡ self.old.pens.book }
        ensures hit { result ≡ true → (self.new.hits ≡ self.old.hits + 1)
            × (self.new.seen.log ≡ rally (suc (self.old.hits + self.old.hits))) }
        ensures missed { result ≡ false → self.new.hits ≡ self.old.hits }
    {
        let hits = self.hits;
        if hits == u64::MAX {
            return false;
        }
        let others = table
            .pongs
            .load::<u64, Looks>(&hits, &mut self.seen, &mut self.pens);
        if others != hits {
            return false;
        }
        table
            .pings
            .store::<u64, Pings>(hits + 1, &hits, &mut self.seen, &mut self.pens);
        self.hits = hits + 1;
        true
    }
}

impl Ponger {
    /// Hits if it is its turn: whether it did.
    ///
    /// Asked for: the table is of its book.
    pub fn hit(&mut self, table: &Table) -> bool
        requires { self.old.pens.book ≡ table.now.pings.book }
        ensures book { self.new.pens.book ≡ self.old.pens.book }
        ensures hit { result ≡ true → (self.new.hits ≡ self.old.hits + 1)
            × (self.new.seen.log ≡ rally (suc (suc (self.old.hits + self.old.hits)))) }
        ensures missed { result ≡ false → self.new.hits ≡ self.old.hits }
    {
        let hits = self.hits;
        if hits == u64::MAX {
            return false;
        }
        let others = table
            .pings
            .load::<u64, LooksBack>(&hits, &mut self.seen, &mut self.pens);
        if others == hits {
            return false;
        }
        table
            .pongs
            .store::<u64, Pongs>(hits + 1, &hits, &mut self.seen, &mut self.pens);
        self.hits = hits + 1;
        true
    }
}

/// Once both players are in one thread again: how often each hit, and the log, which is a rally of all these hits.
///
/// Asked for: they are of one book.
pub fn end(pinger: Pinger, ponger: Ponger) -> (u64, u64, Seen<Hit, u64, InTurn>)
    requires { ponger.pens.book ≡ pinger.pens.book }
    ensures rally { result.2.log ≡ rally (result.0 + result.1) }
    ensures turn { (result.1 ≤ result.0) × (result.0 ≤ suc result.1) }
{
    let Pinger {
        hits,
        mut pens,
        mut seen,
    } = pinger;
    let Ponger {
        hits: others,
        pens: mut second,
        seen: _,
    } = ponger;
    pens.append(&mut second);
    seen.note::<(u64, u64), Ends>(&mut pens, &(hits, others));
    (hits, others, seen)
}

/// Two threads play at a new table, each with so many tries: how often each hit, and the log.
pub fn play<R: Threads>(rt: &R, tries: u32) -> (u64, u64, Seen<Hit, u64, InTurn>)
    ensures rally { result.2.log ≡ rally (result.0 + result.1) }
    ensures turn { (result.1 ≤ result.0) × (result.0 ≤ suc result.1) }
{
    let (table, pinger, ponger) = start();
    let (pinger, ponger) = play_at(rt, &table, pinger, ponger, tries);
    end(pinger, ponger)
}

fn play_at<R: Threads>(
    rt: &R,
    table: &Table,
    pinger: Pinger,
    ponger: Ponger,
    tries: u32,
) -> (Pinger, Ponger)
    requires pinger { pinger.pens.book ≡ table.now.pings.book }
    requires ponger { ponger.pens.book ≡ table.now.pings.book }
    ensures { (result.0.pens.book ≡ table.now.pings.book) × (result.1.pens.book ≡ table.now.pings.book) }
{
    join(
        rt,
        move || -> Pinger
            requires { pinger.pens.book ≡ table.now.pings.book }
            ensures { result.pens.book ≡ table.entry.now.pings.book }
        { ping_often(table, pinger, tries) },
        move || -> Ponger
            requires { ponger.pens.book ≡ table.now.pings.book }
            ensures { result.pens.book ≡ table.entry.now.pings.book }
        { pong_often(table, ponger, tries) },
    )
}

fn ping_often(table: &Table, mut pinger: Pinger, tries: u32) -> Pinger
    requires { pinger.pens.book ≡ table.now.pings.book }
    ensures { result.pens.book ≡ table.now.pings.book }
{
    for _ in 0..tries {
        pinger.hit(table);
    }
    pinger
}

fn pong_often(table: &Table, mut ponger: Ponger, tries: u32) -> Ponger
    requires { ponger.pens.book ≡ table.now.pings.book }
    ensures { result.pens.book ≡ table.now.pings.book }
{
    for _ in 0..tries {
        ponger.hit(table);
    }
    ponger
}
