//! The metrics of all peers.
ghost use Rattle.std.specs.Prelude.{◌≡◌, ◌++◌, IfOk, OnOk, OnErr};
ghost use Rattle.std.specs.List.{flat_map};
ghost use Rattle.service_state.specs.Figures.{family_of};
ghost use Rattle.service_state.specs.Metrics.{sample_text};
ghost use Rattle.service_state.specs.PeerMetrics.{figure_line, figure_text, figures, families_text};

use crate::figures::{Figure, PeerFigures};
use crate::metrics::{Label, Labels, Metrics, Sample};
use std::alloc::{AllocError, Global};

const FIGURES: [Figure; 16] = [
    Figure::Received,
    Figure::TurnedAway,
    Figure::Sent,
    Figure::Lost,
    Figure::Legs,
    Figure::Numbers,
    Figure::LegsEnded,
    Figure::Silence,
    Figure::Up,
    Figure::Unreachable,
    Figure::RoundTrip,
    Figure::Accepted,
    Figure::Packed,
    Figure::Queued,
    Figure::Dropped,
    Figure::Quelched,
];

// Returns the samples of a figure: one for each peer that has it, in the order of the peers.
fn samples_of<'x>(
    alloc: Global,
    figure: Figure,
    peers: &'x [PeerFigures<'x>],
) -> Result<Vec<Sample<'x>>, AllocError>
    ensures { IfOk result (λ samples. flat_map (sample_text (family_of figure).1) samples.items ≡
        flat_map (figure_line figure) peers.now) }
{
    let mut samples = Vec::new(alloc);
    for peer in peers {
        if let Some(value) = figure.value(peer) {
            let labels = Labels::One(Label {
                name: "peer",
                value: peer.name,
            });
            samples.push(Sample { labels, value })?;
        }
    }
    Ok(samples)
}

impl Metrics {
    // Adds a figure of each peer that has it, as a family behind the others.
    fn push_figure(
        &mut self,
        alloc: Global,
        figure: Figure,
        peers: &[PeerFigures<'_>],
    ) -> Result<(), AllocError>
        ensures ok { OnOk result (self.new ≡ self.old ++ figure_text figure peers.now) }
        ensures err { OnErr result (self.new ≡ self.old) }
    {
        let samples = samples_of(alloc, figure, peers)?;
        self.push(alloc, &figure.family(&samples))
    }

    // Adds these figures of each peer that has them.
    fn push_families(
        &mut self,
        alloc: Global,
        figures: &[Figure],
        peers: &[PeerFigures<'_>],
    ) -> Result<(), AllocError>
        ensures { OnOk result (self.new ≡ self.old ++ families_text figures.now peers.now) }
    {
        for figure in figures {
            self.push_figure(alloc, *figure, peers)?;
        }
        Ok(())
    }

    /// Adds all figures of all peers: a family for each figure, and in it a sample for each peer that has the figure, in the
    /// order of the peers.
    ///
    /// `AllocError`: a request for memory was refused. Then some of the families may be missing.
    pub fn push_figures(
        &mut self,
        alloc: Global,
        peers: &[PeerFigures<'_>],
    ) -> Result<(), AllocError>
        ensures { OnOk result (self.new ≡ self.old ++ families_text figures peers.now) }
    {
        self.push_families(alloc, &FIGURES, peers)
    }
}
