//! Runs of media, folded.
ghost use Rattle.std.specs.Prelude.{◌≡◌, ◌+◌, ◌<◌, ◌^◌, Bool, IfSome, IsTrue, OnOk, OnErr, [], length, ℕ};
ghost use Rattle.replay_views.specs.MediaRuns.{frames_of, octets_of, one_more, octets_more, Takes, Extends};
ghost use Rattle.replay_views.specs.declared.ladder.media_runs.RunKey.{RunKey};

use std::alloc::{AllocError, Global};
use std::marker::Model;

/// The direction of a datagram.
#[derive(Clone, Copy, PartialEq, Eq)]
pub enum Direction {
    /// From the peer to the exchange.
    In,
    /// From the exchange to the peer.
    Out,
}

/// How media is carried ("Mini Frames", "Meta Frames").
#[derive(Clone, Copy, PartialEq, Eq)]
pub enum MediaKind {
    Mini,
    /// An entry of a trunk frame.
    Trunk,
    Video,
}

/// The properties that the frames of a run share.
#[derive(Clone, Copy, PartialEq, Eq)]
pub struct RunKey {
    /// The place of the peer.
    pub peer: u16,
    pub direction: Direction,
    pub kind: MediaKind,
    /// The call number that the frames have: the sender's.
    pub number: u16,
}

/// One frame with media.
#[derive(Clone, Copy)]
pub struct MediaPiece {
    pub key: RunKey,
    /// In milliseconds.
    pub moment: u64,
    pub octets: u64,
}

/// Frames of one key, and when they came.
#[derive(Clone, Copy)]
pub struct MediaRun {
    pub key: RunKey,
    /// The moments of the first and of the last frame, in milliseconds.
    pub first: u64,
    pub last: u64,
    pub frames: u64,
    /// Octets of media, in all frames.
    pub octets: u64,
}

impl MediaRun {
    // Returns a run of one frame.
    fn of(piece: MediaPiece) -> MediaRun
        ensures key { result.key ≡ piece.key }
        ensures frames { result.frames ≡ 1 }
        ensures octets { result.octets ≡ piece.octets }
    {
        MediaRun {
            key: piece.key,
            first: piece.moment,
            last: piece.moment,
            frames: 1,
            octets: piece.octets,
        }
    }

    // Returns whether the run can count the piece as one more frame.
    fn takes(&self, piece: MediaPiece) -> bool
        ensures { IsTrue result → Takes self.now piece }
    {
        self.key == piece.key && self.frames < u64::MAX && self.octets <= u64::MAX - piece.octets
    }

    // Returns the run with one more frame.
    fn with(self, piece: MediaPiece) -> MediaRun
        requires { Takes self piece }
        ensures key { result.key ≡ self.key }
        ensures frames { result.frames ≡ self.frames + 1 }
        ensures octets { result.octets ≡ self.octets + piece.octets }
    {
        MediaRun {
            key: self.key,
            first: self.first,
            last: piece.moment,
            frames: self.frames + 1,
            octets: self.octets + piece.octets,
        }
    }
}

/// Runs of media, in the order in which they began. Contracts see their list.
#[derive(Drop)]
pub struct MediaRuns {
    runs: Vec<MediaRun>,
}

impl Model for MediaRuns {
    ghost use Rattle.std.specs.Prelude.{List};
    ghost use Rattle.replay_views.specs.declared.ladder.media_runs.MediaRun.{MediaRun};

    ghost Value = { List MediaRun };

    ghost view = { λ folded. folded.runs.items };
}

// Returns the place of the first run that takes the piece, and that run with it.
fn extended(runs: &[MediaRun], piece: MediaPiece) -> Option<(usize, MediaRun)>
    ensures within { IfSome result (λ found. found.0 < length runs.now) }
    ensures more { IfSome result (λ found. Extends runs.now piece found.0 found.1) }
{
    for (place, run) in runs.iter().enumerate() {
        if run.takes(piece) {
            return Some((place, run.with(piece)));
        }
    }
    None
}

impl MediaRuns {
    /// Returns an empty list of runs. It takes no memory.
    pub fn new(alloc: Global) -> MediaRuns
        ensures { result ≡ [] }
    {
        MediaRuns {
            runs: Vec::new(alloc),
        }
    }

    /// Folds a frame into the run of its key, or begins one.
    ///
    /// `AllocError`: a request for memory was refused. Then all runs stay as they were.
    #[tactic(auto, using(crate::proofs::FoldLemmas::frames_in_place, crate::proofs::FoldLemmas::octets_in_place))]
    pub fn fold(&mut self, piece: MediaPiece) -> Result<(), AllocError>
        // For any choice of keys, the frames and octets are the earlier ones, and this one's if its key is chosen.
        ensures frames { OnOk result ((chosen : RunKey → Bool) →
            frames_of chosen self.new ≡ frames_of chosen self.old + one_more chosen piece.key) }
        ensures octets { OnOk result ((chosen : RunKey → Bool) →
            octets_of chosen self.new ≡ octets_of chosen self.old + octets_more chosen piece) }
        ensures err { OnErr result (self.new ≡ self.old) }
    {
        match extended(&self.runs, piece) {
            Some((place, more)) => {
                self.runs[place] = more;
                Ok(())
            }
            None => Ok(self.runs.push(MediaRun::of(piece))?),
        }
    }

    /// Returns the runs, in the order in which they began.
    pub fn as_slice(&self) -> &[MediaRun]
        ensures { result.now ≡ self.now }
    {
        &self.runs
    }

    /// Drops all runs.
    pub fn clear(&mut self)
        ensures { self.new ≡ [] }
    {
        self.runs.clear();
    }
}
