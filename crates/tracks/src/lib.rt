// Tracks of an organised track system: A to Z, and half tracks, each midway to the next letter. It
// is a kind that the house does not have: nothing else in the repository knows it.
//
// A cell is a span of tracks, all whole tracks, or all half tracks. The last two turn at every track.

#![tactic(auto)]

ghost use Rattle.std.specs.Prelude.{◌≡◌, ◌≤◌, nat_le};
ghost use Rattle.kinds.specs.Meaning.{earlier, later};
ghost use Rattle.tracks.specs.Tracks.{is_track, next, place, track_rank, tracks};
ghost use Rattle.std.proofs.Common.{arith};
ghost use Rattle.tracks.specs.Places.{same-track};
ghost use Rattle.tracks.specs.TracksKindLemmas.{both-tracks, stops-later, steady-cell, in-range};

use kinds::{Kind, earlier_by};

// The number of the last letter; A has number 0.
pub const LAST: u8 = 25;

// The track of a letter, or the half track after it.
#[derive(Clone, Copy)]
pub struct Track {
    pub letter: u8,
    pub half: bool,
}

// Which tracks a cell means.
#[derive(Clone, Copy)]
pub enum TrackCell {
    // From one track to another, both included.
    Span { from: Track, to: Track },
    // The tracks that have a letter of their own.
    Whole,
    // The tracks between two letters.
    Half,
}

// The kind of tracks.
#[derive(Clone, Copy)]
pub struct Tracks;

// The place of a track, counted in half tracks from A.
fn place_of(track: Track) -> u16
    ensures { result ≡ place track }
{
    2 * u16::from(track.letter) + u16::from(track.half)
}

// Is it a track? There is none after Z.
fn is_track(track: Track) -> bool
    ensures { result ≡ is_track track }
{
    place_of(track) <= 2 * u16::from(LAST)
}

// Is a not after b?
fn not_after(a: Track, b: Track) -> bool
    ensures { result ≡ nat_le (track_rank a) (track_rank b) }
{
    place_of(a) <= place_of(b)
}

// The track, if it is one and after another.
// One function for all kinds, passed their order and test, would make each call longer than this body.
fn track_after(after: Track, track: Track) -> Option<Track>
    ensures { result ≡ later track_rank is_track after track }
{
    (!not_after(track, after) && is_track(track)).then_some(track)
}

// The track half a track further on, if it is one and after another.
fn track_past(after: Track, track: Track) -> Option<Track>
    ensures { result ≡ later track_rank is_track after (next track) }
{
    let letter = track.letter.checked_add(u8::from(track.half))?;
    track_after(
        after,
        Track {
            letter,
            half: !track.half,
        },
    )
}

impl Kind for Tracks {
    type Value = Track;

    type Cell = TrackCell;

    ghost meaning = { tracks };

    ghost lawful = { record {
      bounded = λ v. omega arith;
      distinct = same-track;
      ordered = λ a z r. (both-tracks a z r).2;
      between = λ a z v r p q. in-range a z v r q;
      later = stops-later;
      steady = λ c a z v w r f p q k h. let far : track_rank v ≤ track_rank z = omega arith in steady-cell c v w f (in-range a z v r far) (in-range a z w r k) q h;
    } };

    fn at_or_before(a: Track, b: Track) -> bool {
        not_after(a, b)
    }

    fn is_range(least: Track, greatest: Track) -> bool {
        is_track(least) && is_track(greatest) && not_after(least, greatest)
    }

    fn fits(cell: TrackCell, _least: Track, _greatest: Track) -> bool {
        match cell {
            TrackCell::Span { from, to } => is_track(from) && is_track(to) && not_after(from, to),
            TrackCell::Whole | TrackCell::Half => true,
        }
    }

    fn holds(cell: TrackCell, value: Track) -> bool {
        match cell {
            TrackCell::Span { from, to } => not_after(from, value) && not_after(value, to),
            TrackCell::Whole => !value.half,
            TrackCell::Half => value.half,
        }
    }

    fn next_stop(cell: TrackCell, after: Track) -> Option<Track> {
        match cell {
            TrackCell::Span { from, to } => {
                earlier_by(track_after(after, from), track_past(after, to), not_after)
            }
            TrackCell::Whole | TrackCell::Half => track_past(after, after),
        }
    }
}
