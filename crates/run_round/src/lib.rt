// The pending round, played on the heads' memory: when the next round record is accepted, or the file ends well.
#![tactic(auto)]

ghost use Rattle.std.specs.Prelude.{true, false, List, ◌≡◌, ℕ, ◌≤◌, ℤ};
ghost use Rattle.ring_spec.specs.Rounds.{receivers, ends_phase};
ghost use Rattle.run_spec.specs.RunFile.{read_file};
ghost use Rattle.run_listing.specs.Held.{end_in};
ghost use Rattle.run_listing.specs.Heights.{LowestHighest};
ghost use Rattle.run_state.specs.Memory.{Memory, memory_lent, with_positions};
ghost use Rattle.run_state.specs.State.{agreed_before, PlayerOf, MemoryOf};
ghost use Rattle.run_round.specs.Played.{Played};
ghost use Rattle.run_round.specs.Agrees.{HoldsAll, Agrees};
ghost use Rattle.run_round.specs.Inner.{stage_of, line_of, Kept};
ghost use Rattle.texts.specs.Texts.{bytes_of};

use frame_slots::{PlantedBytes, PlantedLengths};
use ring_play::Stage;
use run_judge::HEAD_MARKS;
use run_listing::Extremes;
use run_state::Player;
use terms::{Family, Lists, Positions, Words};
use texts::Text;

// The ring in the pending round.
fn stage_of(p: Player) -> Stage
    ensures { result ≡ stage_of p }
{
    let family = p.family;
    Stage {
        n: p.n,
        f: p.f,
        phase: run_state::phase_of(family, p.given),
        before: (p.before % HEAD_MARKS) as u32,
        struck: (p.struck % HEAD_MARKS) as u32,
        listeners: p.listeners,
        away: (p.struck / HEAD_MARKS % HEAD_MARKS) as u32,
    }
}

// The line of the phase that the pending round ends, by the lowest and the highest position at its end.
fn line_with(p: Player, extremes: Extremes) -> Text
    ensures result_value { (positions : List ℤ) → ends_phase p.family p.given ≡ true
        → LowestHighest receivers (end_in p.n p.listeners p.struck positions) extremes.low extremes.high → bytes_of result ≡ line_of p positions }
    ensures len_bound { result.len ≤ 64 }
{
    let family = p.family;
    let phase = run_state::phase_of(family, p.given);
    let struck = p.struck;
    match family {
        Family::TwoRounds => run_listing::end_line(phase, extremes, p.before, struck),
        Family::OneRound => run_listing::end_line(phase, extremes, struck, 0),
    }
}

// The line of the pending round's phase, once it is played, if it ends its phase.
fn line_of(p: Player, positions: &Positions) -> Text
    ensures result_value { bytes_of result ≡ line_of p positions.now }
    ensures len_bound { result.len ≤ 64 }
{
    let family = p.family;
    if !run_state::ends_phase(family, p.given) {
        return texts::empty();
    }
    line_with(
        p,
        run_listing::extremes_of(p.n, p.listeners, p.struck, positions),
    )
}

// Plays the pending round of a ring that has not agreed.
fn play_ring(
    p: Player,
    positions: &mut Positions,
    marks: &mut Words,
    lists: &mut Lists,
    planted: &PlantedBytes,
    lengths: &PlantedLengths,
)
    ensures { (a : List ℕ) → (read_file a).setup.begun ≡ true → (read_file a).rounds.pending ≡ true → PlayerOf p (read_file a)
        → MemoryOf (read_file a) (memory_lent positions.old marks.old lists.old planted.now lengths.now) → p.agreed ≡ false
        → Kept (read_file a) (memory_lent positions.new marks.new lists.new planted.now lengths.now) }
{
    let s = stage_of(p);
    let family = p.family;
    match family {
        Family::TwoRounds => {
            if !run_state::ends_phase(family, p.given) {
                ring_play::collect(s, positions, planted, lengths, marks, lists);
                return;
            }
            ring_play::confess(s, marks, lists, planted, lengths, positions);
        }
        Family::OneRound => ring_play::conclude(s, positions, planted, lengths),
    }
}

// The pending round of a ring that has agreed: every receiver holds the position on which it did, whatever is planted, so that nothing is
// left to settle. Answers the line of the phase that the round ends, if it ends one: all places hold one position, so that the first that
// is sound says it of all.
pub fn play_agreed(p: Player, positions: &Positions) -> Text
    ensures by_index { (a : List ℕ) (M : Memory) → (read_file a).setup.begun ≡ true → (read_file a).rounds.pending ≡ true
        → PlayerOf p (read_file a) → p.agreed ≡ true
        → MemoryOf (read_file a) (with_positions M positions.now)
        → Played (read_file a) result (with_positions M positions.now) }
    ensures len_bound { result.len ≤ 64 }
{
    let family = p.family;
    if !run_state::ends_phase(family, p.given) {
        return texts::empty();
    }
    let held = run_listing::first_sound(p.n, p.listeners, p.struck, positions);
    let extremes = Extremes {
        low: held,
        high: held,
    };
    line_with(p, extremes)
}

// Plays the pending round, and answers the line of the phase that it ends, if it ends one.
pub fn play_round(
    p: Player,
    positions: &mut Positions,
    marks: &mut Words,
    lists: &mut Lists,
    planted: &PlantedBytes,
    lengths: &PlantedLengths,
) -> Text
    ensures by_index { (a : List ℕ) → (read_file a).setup.begun ≡ true → (read_file a).rounds.pending ≡ true → PlayerOf p (read_file a)
        → MemoryOf (read_file a) (memory_lent positions.old marks.old lists.old planted.now lengths.now)
        → Played (read_file a) result (memory_lent positions.new marks.new lists.new planted.now lengths.now) }
    ensures len_bound { result.len ≤ 64 }
{
    if !p.agreed {
        play_ring(p, positions, marks, lists, planted, lengths);
        return line_of(p, positions);
    }
    play_agreed(p, positions)
}

// Whether the ring has agreed, once the pending round, if there is one, is played. If it agrees just then, the position on which it does
// becomes that of all places.
pub fn agree(p: Player, positions: &mut Positions) -> bool
    ensures { (a : List ℕ) (M : Memory) → (read_file a).setup.begun ≡ true → PlayerOf p (read_file a)
        → HoldsAll (read_file a) (agreed_before (read_file a)) (with_positions M positions.old)
        → Agrees (read_file a) result (with_positions M positions.new) }
{
    if p.agreed {
        return true;
    }
    if !p.pending {
        return false;
    }
    let family = p.family;
    if !run_state::ends_phase(family, p.given) {
        return false;
    }
    run_listing::level(p.n, p.listeners, p.struck, positions)
}
