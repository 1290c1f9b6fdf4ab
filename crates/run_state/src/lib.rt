// The player: what has been read of a run file, but for the heads' memory. specs/Changes.antt says what changes of it, specs/State.antt
// what it and its memory hold of the file read so far.
#![tactic(auto)]

ghost use Rattle.std.specs.Prelude.{false, cond, [], ◌≡◌, ◌+◌, ◌*◌, ◌%◌, min, ◌^◌};
ghost use Rattle.terms.specs.declared.Family.TheVariants.{TwoRounds};
ghost use Rattle.ring_spec.specs.Rounds.{phase_of, ends_phase, most_rounds, receivers};
ghost use Rattle.run_spec.specs.RunFile.{last_pair};
ghost use Rattle.run_state.specs.Changes.{fresh_player, halted, with_round_given, with_pair_planted, with_listeners_given, with_strikes_given};
ghost use Rattle.run_state.specs.Places.{first_of, bare_of};
ghost use Rattle.run_state.specs.Counts.{aged, cleared, counts_played};

use run_judge::{HEAD_MARKS, MOST_ROUNDS};
use run_spec::Pair;
use terms::{Family, RECEIVERS};

// Of a record that is cut, as many bytes are kept as the longest record has.
pub const CARRY: usize = run_judge::LONGEST as usize;

pub type Carry = [u8; CARRY];

// Phases since the last strike (document 02, A10): of heads at places 0 to 31, of listeners at 32 to 47.
pub type Counts = [u8; RECEIVERS];

// What has been read of a run file, but for the heads' memory. The order of the fields is for speed (D16c): it leaves no gap between them,
// which the compiler would copy in parts that overlap.
#[derive(Clone, Copy)]
pub struct Player {
    pub have: usize, // how many bytes of the record that is not yet whole
    pub before: u64, // who was struck in the round before the last: bits 0 to 31 heads, 32 to 47 listeners
    pub struck: u64, // who is struck in the last
    pub given: u32, // rounds given
    pub pair: Pair, // the last planted pair of the last round
    pub agreed: bool, // all sound receivers held one position at a phase end that was played
    pub begun: bool, // a start was accepted
    pub family: Family, // by its kind
    pub n: u8,
    pub f: u8,
    pub listeners: u8,
    pub pending: bool, // the last round is not yet played
    pub amended: bool, // its struck listeners were given
    pub fault: u8, // the number of the first fault, 0 for none
    pub since: Counts, // of each head and listener, in the rounds played
}

// Before the first round.
pub fn fresh(begun: bool, family: Family, n: u8, f: u8) -> Player
    ensures { result ≡ fresh_player begun family n f }
{
    let since = [0u8; RECEIVERS];
    Player {
        begun,
        family,
        n,
        f,
        listeners: 0,
        given: 0,
        pending: false,
        before: 0,
        struck: 0,
        amended: false,
        pair: no_pair(),
        have: 0,
        fault: 0,
        agreed: false,
        since,
    }
}

fn no_pair() -> Pair
    ensures { result ≡ last_pair [] }
{
    Pair {
        some: false,
        from: 0,
        to: 0,
    }
}

// Before the first byte.
pub fn unread() -> Player
    ensures { result ≡ fresh_player false TwoRounds 0 0 }
{
    fresh(false, Family::TwoRounds, 0, 0)
}

// The player at a fault, which ends the file. The number may be any: a `Refusal` would be a narrower type.
pub fn stop(p: Player, number: u8) -> Player
    ensures { result ≡ halted p 0 number }
{
    let mut out = p;
    out.have = 0;
    out.fault = number;
    out
}

// The phase of round number `given`, counted from 1.
pub fn phase_of(family: Family, given: u32) -> u16
    ensures { result ≡ phase_of family given % 65536 }
{
    match family {
        Family::TwoRounds => ((given / 2 + given % 2) % 65536) as u16,
        Family::OneRound => (given % 65536) as u16,
    }
}

// Whether round number `given` ends its phase.
pub fn ends_phase(family: Family, given: u32) -> bool
    ensures { result ≡ ends_phase family given }
{
    match family {
        Family::TwoRounds => given % 2 == 0,
        Family::OneRound => true,
    }
}

// A round more than a number of rounds, up to the most that a file has in either family.
fn one_more(given: u32) -> u32
    ensures { result ≡ min (given + 1) (most_rounds TwoRounds) }
{
    given.saturating_add(1).min(MOST_ROUNDS)
}

// Who was struck in the round before the next one.
fn struck_before(p: Player) -> u64
    ensures { result ≡ cond p.pending p.struck p.before }
{
    if p.pending { p.struck } else { p.before }
}

// A phase end more, for each, up to 255, where a count rests.
fn aged(since: Counts) -> Counts
    ensures { result ≡ aged receivers since }
{
    let mut out = since;
    for c in out.iter_mut() {
        *c = c.saturating_add(1);
    }
    out
}

// Those that the mark word marks begin anew. From the last mark on there is nothing to do.
fn cleared(since: Counts, marks: u64) -> Counts
    ensures { result ≡ cleared receivers marks since }
{
    let mut out = since;
    for (j, c) in out.iter_mut().enumerate() {
        if marks >> j == 0 {
            return out;
        }
        if marks::marked_wide(marks, j) {
            *c = 0;
        }
    }
    out
}

// The counts when the pending round, if there is one, is played.
pub fn counts_played(p: Player) -> Counts
    ensures { result ≡ counts_played p }
{
    let since = p.since;
    if !p.pending {
        return since;
    }
    let family = p.family;
    if ends_phase(family, p.given) {
        return cleared(aged(since), p.struck);
    }
    cleared(since, p.struck)
}

// The player after an accepted round record. agreed: whether the ring has agreed, now that the round that was pending is played.
pub fn given_round(p: Player, struck: u32, agreed: bool) -> Player
    ensures { result ≡ with_round_given p struck agreed }
{
    let family = p.family;
    let since = counts_played(p);
    Player {
        begun: p.begun,
        family,
        n: p.n,
        f: p.f,
        listeners: p.listeners,
        given: one_more(p.given),
        pending: true,
        before: struck_before(p),
        struck: struck as u64,
        amended: false,
        pair: no_pair(),
        have: 0,
        fault: 0,
        agreed,
        since,
    }
}

// The player after accepted planted records, the last with this pair.
pub fn planted_pair(p: Player, pair: Pair) -> Player
    ensures { result ≡ with_pair_planted p pair }
{
    let mut out = p;
    out.pair = pair;
    out.have = 0;
    out.fault = 0;
    out
}

// Nothing but the start was accepted.
pub fn is_first(p: Player) -> bool
    ensures { result ≡ first_of p }
{
    if !p.begun {
        return false;
    }
    if p.given != 0 {
        return false;
    }
    p.listeners == 0
}

// Nothing was accepted after the record of the pending round.
pub fn is_bare(p: Player) -> bool
    ensures { result ≡ bare_of p }
{
    if !p.pending {
        return false;
    }
    if p.amended {
        return false;
    }
    !p.pair.some
}

// The player after an accepted number of listeners.
pub fn given_listeners(p: Player, m: u8) -> Player
    ensures { result ≡ with_listeners_given p m }
{
    let mut out = p;
    out.listeners = m;
    out.have = 0;
    out.fault = 0;
    out
}

// The mark word of struck heads with that of struck listeners above it.
fn with_listeners(struck: u64, marks: u16) -> u64
    ensures { result ≡ struck % 2 ^ 32 + 2 ^ 32 * marks }
{
    struck % HEAD_MARKS + HEAD_MARKS * (marks as u64)
}

// The player after an accepted record of a round's struck listeners.
pub fn given_strikes(p: Player, marks: u16) -> Player
    ensures { result ≡ with_strikes_given p marks }
{
    let struck = with_listeners(p.struck, marks);
    let mut out = p;
    out.struck = struck;
    out.amended = true;
    out.have = 0;
    out.fault = 0;
    out
}
