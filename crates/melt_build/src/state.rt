//! A composition as far as its groups are read.

ghost use Rattle.std.specs.Prelude.{◌≡◌};
ghost use Rattle.mlt_graph.specs.Show.{pix_of};
ghost use Rattle.mlt_base.specs.Try.{Gives};
ghost use Rattle.mlt_tree.specs.Composition.{pix_of as pix_of_choice, raw_output as raw_output_of, consumer as consumer_of};
ghost use Rattle.melt_build.specs.Properties.{props_in};
ghost use Rattle.melt_build.specs.State.{IsComposed, state_view};

use crate::consumer::Consumer;
use crate::object::Object;
use crate::props::Properties;
use crate::service::raw_of;
use mlt_base::{Profile, UnitId};
use mlt_graph::{Graph, Level, Pix};
use mlt_source::SourceTable;
use mlt_tree::{Cause, Group, Refusal, services as row};

/// What the words of a file share with those around them: the units, the sources, how many bytes were loaded
/// and how many words were read.
pub(crate) struct Made {
    pub graph: Graph,
    pub table: SourceTable,
    pub loaded: u64,
    pub words: u32,
}

/// What the groups so far have made. It is ended by [`State::end`].
pub(crate) struct State<'a> {
    pub profile: Profile,
    pub made: Made,
    pub level: Level,
    // the place of each plant's group
    pub plant_places: Vec<u32>,
    pub inherited: Object<'a>,
    pub last_mix: Option<UnitId>,
    pub consumer: Option<Consumer<'a>>,
}

/// How the pixels are written.
fn pix_of(rgba: bool) -> Pix
    ensures { pix_of result ≡ pix_of_choice rgba }
{
    if rgba { Pix::Rgba } else { Pix::Rgb }
}

impl<'a> State<'a> {
    /// Lets a composition go that is refused.
    pub(crate) fn end(self) {
        let State {
            profile: _,
            made,
            level: _,
            plant_places: _,
            inherited,
            last_mix: _,
            consumer: _,
        } = self;
        let Made {
            graph: _,
            table: _,
            loaded: _,
            words: _,
        } = made;
        inherited.end();
    }

    /// The consumer `raw`, under this name.
    #[tactic(auto, unfolding(mlt_tree::specs::Composition::raw_output))]
    fn raw_output(
        &mut self,
        group: &Group,
        given: Properties<'_, '_, '_>,
        video: &'a str,
    ) -> Result<(), Refusal>
        requires composed { IsComposed self.old }
        requires own { props_in given ≡ group.now.props }
        ensures value { Gives (λ _. state_view self.new) result (raw_output_of (state_view self.old) group.now video.now) }
        ensures composed { IsComposed self.new }
    {
        let rgba = given.choice(&row::PIX)?;
        let workers = given.distance(&row::REAL_TIME)?;
        let buffer = given.count(&row::BUFFER)?;
        let slices = given.count(&row::SLICES)?;
        let cache = given.count(&row::CACHE)?;
        let first = given.moment(&row::IN, &self.profile)?;
        let last = given.moment(&row::OUT, &self.profile)?;
        self.consumer = Some(Consumer {
            place: group.place,
            video,
            pix: pix_of(rgba),
            workers,
            buffer,
            slices,
            cache,
            first,
            last,
        });
        Ok(())
    }

    /// The first consumer; a second is refused.
    #[tactic(auto, unfolding(mlt_tree::specs::Composition::consumer))]
    pub(crate) fn consumer(
        &mut self,
        group: &'a Group,
        given: Properties<'_, '_, '_>,
    ) -> Result<(), Refusal>
        requires composed { IsComposed self.old }
        requires own { props_in given ≡ group.now.props }
        ensures value { Gives (λ _. state_view self.new) result (consumer_of (state_view self.old) group.now) }
        ensures composed { IsComposed self.new }
    {
        if let Some(_) = self.consumer {
            return Err(Refusal::at(group.place, Cause::TooMany { limit: 1 }));
        }
        let Some(video) = raw_of(group.arg.as_str()) else {
            return Err(Refusal::at(group.place, Cause::UnknownService));
        };
        self.raw_output(group, given, video)
    }
}
