//! Producers: what a word asks for, what it makes, and the clip of that at the track's end.

ghost use Rattle.std.specs.Prelude.{◌≡◌, ◌≤◌, ◌<◌, ◌+◌, ◌-◌, ◌^◌, ◌++◌, [], ◌∷◌, length, IfOk, IfSome, OnOk};
ghost use Rattle.mlt_base.specs.ProfileView.{measures_of};
ghost use Rattle.mlt_base.specs.Try.{Gives, TryGives};
ghost use Rattle.mlt_tree.specs.Clips as meaning;
ghost use Rattle.mlt_tree.specs.Composing as composing;
ghost use Rattle.mlt_tree.specs.Composing.{no_words};
ghost use Rattle.mlt_tree.specs.Composition.{State as StateOf, props_of};
ghost use Rattle.mlt_tree.specs.Loading.{Files};
ghost use Rattle.mlt_tree.specs.declared.group.Group.{Group as GroupOf};
ghost use Rattle.mlt_host.specs.Host.{OnlyLoads};
ghost use Rattle.mlt_source.specs.Sources.{source_of};
ghost use Rattle.melt_build.specs.Clips.{origin_view, wanted_view, asked_view, product_view};
ghost use Rattle.melt_build.specs.Properties.{props_in};
ghost use Rattle.melt_build.specs.Loads.{TellsFiles, Goes, CountsBuildLoads};
ghost use Rattle.melt_build.specs.Service.{named_view};
ghost use Rattle.melt_build.specs.State.{IsComposed, IsMade, IsMore, made_view, state_view, cut_view};

use crate::fault::BuildFault;
use crate::object::Object;
use crate::props::Properties;
use crate::refused::edited;
use crate::service::{Named, colour_name, producer_of};
use crate::state::{Made, State};
use crate::wanted::{Cut, Origin, Product, Wanted};
use mlt_base::{Pos, Profile, SourceNo, Span, Try};
use mlt_host::Host;
use mlt_image::Colour;
use mlt_source::{Source, SourceTable};
use mlt_tree::{Cause, Entry, FilterList, Group, Producer, Refusal, services as row};
use std::alloc::{AllocError, Global};

/// From the first frame to the last, which is the source's where none is given.
pub(crate) fn cut_of(place: u32, length: u32, first: u32, out: Option<u32>) -> Result<Cut, Refusal>
    requires { 1 ≤ length }
    ensures value { Gives cut_view result (meaning.cut_of place length first out) }
    ensures ordered { IfOk result (λ c. (c.first ≤ c.last) × (c.last < length)) }
{
    let last = out.unwrap_or(length - 1);
    if first <= last && last < length {
        Ok(Cut { first, last })
    } else {
        Err(Refusal::at(
            place,
            Cause::BadRange {
                first,
                last,
                length,
            },
        ))
    }
}

/// The length of a source: what is asked for, else its own, or as far as the clip goes where that is more.
fn length_by(own: u32, last: Option<u32>, length: Option<u32>) -> u32
    requires own { (1 ≤ own) × (own < 2 ^ 31) }
    requires last { IfSome last (λ n. n < 2 ^ 31) }
    requires length { IfSome length (λ n. (1 ≤ n) × (n < 2 ^ 31)) }
    ensures value { result ≡ meaning.length_by own last length }
    ensures range { (1 ≤ result) × (result < 2 ^ 31) }
{
    match length {
        Some(length) => length,
        None => match last {
            None => own,
            Some(last) => own.max(last + 1).min(row::LENGTH.high),
        },
    }
}

impl Properties<'_, '_, '_> {
    /// The first frame and the last that the properties ask for.
    #[tactic(auto, unfolding(mlt_tree::specs::Clips::range_by))]
    fn range_by(&self, profile: &Profile) -> Result<Wanted, Refusal>
        ensures { (s : StateOf) (group : GroupOf) → props_of s group ≡ props_in self.now → s.profile ≡ measures_of profile.now →
            Gives wanted_view result (meaning.range_by s group) }
    {
        let first = self.moment_or_first(&row::IN, profile)?;
        let last = self.moment(&row::OUT, profile)?;
        Ok(Wanted {
            first,
            last,
            length: None,
        })
    }

    /// The frames, and then the length.
    #[tactic(auto, unfolding(mlt_tree::specs::Clips::wanted_by))]
    fn wanted_by(&self, profile: &Profile) -> Result<Wanted, Refusal>
        ensures { (s : StateOf) (group : GroupOf) → props_of s group ≡ props_in self.now → s.profile ≡ measures_of profile.now →
            Gives wanted_view result (meaning.wanted_by s group) }
    {
        let range = self.range_by(profile)?;
        let length = self.number(&row::LENGTH)?;
        Ok(Wanted {
            first: range.first,
            last: range.last,
            length,
        })
    }

    /// What a service takes, for the word at a place: its value, and the frames.
    fn asked_of<'g>(
        &self,
        profile: &Profile,
        place: u32,
        named: Named<'g>,
    ) -> Result<(Origin<'g>, Wanted), Refusal>
        ensures { (s : StateOf) (group : GroupOf) → props_of s group ≡ props_in self.now → s.profile ≡ measures_of profile.now → group.place ≡ place →
            Gives asked_view result (meaning.asked_of s group (named_view named.entry).arg named.entry.producer) }
    {
        match named.producer {
            Producer::Colour => {
                let Some(colour) = Colour::read(colour_name(named.arg)) else {
                    return Err(Refusal::at(place, Cause::BadValue));
                };
                Ok((Origin::Colour(colour), self.wanted_by(profile)?))
            }
            Producer::Picture => Ok((Origin::Picture(named.arg), self.wanted_by(profile)?)),
            Producer::Sound => Err(Refusal::at(place, Cause::Unsupported)),
            Producer::Melt => Ok((Origin::Words(named.arg), self.range_by(profile)?)),
        }
    }
}

/// Adds a source to the table, and answers its number, the next one.
fn add(table: &mut SourceTable, source: Source) -> Result<SourceNo, AllocError>
    ensures added { OnOk result (table.new ≡ table.old ++ source_of source ∷ []) }
    ensures number { IfOk result (λ no. no.0 ≡ length table.old) }
{
    match source {
        Source::Colour(colour) => table.add_colour(colour),
        Source::Still(still) => table.add_still(still),
    }
}

impl Made {
    /// A source and its unit, which have the next numbers.
    pub(crate) fn source_made(
        &mut self,
        profile: &Profile,
        source: Source,
        asked: Wanted,
    ) -> Result<Product, AllocError>
        requires { IsMade self.old }
        ensures value { IfOk result (λ product. product_view self.new product ≡
            meaning.source_made (measures_of profile.now) (made_view self.old) (source_of source) (wanted_view asked)) }
        ensures made { OnOk result (IsMade self.new) }
        ensures more { OnOk result (IsMore self.old self.new) }
        ensures there { IfOk result (λ product. product.unit.0 < length self.new.graph) }
        ensures frames { IfOk result (λ product. (1 ≤ product.frames) × (product.frames < 2 ^ 31)) }
    {
        let kind = source.kind();
        let frames = length_by(source.length(profile), asked.last, asked.length);
        let no = add(&mut self.table, source)?;
        let unit = self.graph.add_source(no, kind, frames)?;
        Ok(Product { unit, frames })
    }

    /// What a producer makes, for the word at a place; a file of words is refused, since none is read yet.
    fn product_of<H: Host>(
        &mut self,
        alloc: Global,
        profile: &Profile,
        place: u32,
        origin: Origin<'_>,
        asked: Wanted,
        host: &mut H,
    ) -> Result<Product, BuildFault>
        requires { IsMade self.old }
        ensures goes { (files : Files) (s : StateOf) (group : GroupOf) → s.made ≡ made_view self.old → s.profile ≡ measures_of profile.now → group.place ≡ place →
            TellsFiles files (composing.product_of files no_words s group (origin_view origin.entry) (wanted_view asked)) (H.state host.old) →
            Goes (product_view self.new) result (composing.product_of files no_words s group (origin_view origin.entry) (wanted_view asked)) (H.state host.old) (H.state host.new) }
        ensures made { OnOk result (IsMade self.new) }
        ensures more { OnOk result (IsMore self.old self.new) }
        ensures there { IfOk result (λ product. product.unit.0 < length self.new.graph) }
        ensures frames { IfOk result (λ product. (1 ≤ product.frames) × (product.frames < 2 ^ 31)) }
        ensures counts { CountsBuildLoads result (H.state host.old) (H.state host.new) }
        ensures rest { OnlyLoads (H.state host.old) (H.state host.new) }
    {
        match origin {
            Origin::Colour(colour) => Ok(self.source_made(profile, Source::Colour(colour), asked)?),
            Origin::Picture(name) => self.picture_made(alloc, profile, place, name, asked, host),
            Origin::Words(_) => Err(BuildFault::Refused(Refusal::at(place, Cause::Unsupported))),
        }
    }
}

impl State<'_> {
    /// What a producer's word asks for: the value of the service that it names, and the frames.
    #[tactic(auto, unfolding(mlt_tree::specs::Clips::asked_for))]
    fn asked_for<'g>(
        &self,
        group: &'g Group,
        own: &Object<'_>,
    ) -> Result<(Origin<'g>, Wanted), Refusal>
        requires { own.now.words.now ≡ group.now.props }
        ensures { Gives asked_view result (meaning.asked_for (state_view self.now) group.now) }
    {
        let Some(named) = producer_of(group.arg.as_str()) else {
            return Err(Refusal::at(group.place, Cause::UnknownService));
        };
        let given = Properties {
            front: None,
            inherited: &self.inherited,
            own,
        };
        given.asked_of(&self.profile, group.place, named)
    }

    /// The clip of what was made, at the track's end.
    #[tactic(auto, unfolding(mlt_tree::specs::Clips::clip_added))]
    fn clip_added(
        &mut self,
        alloc: Global,
        group: &Group,
        product: Product,
        asked: Wanted,
    ) -> Result<(), Try<Refusal>>
        requires composed { IsComposed self.old }
        requires there { product.unit.0 < length self.old.made.graph }
        requires frames { (1 ≤ product.frames) × (product.frames < 2 ^ 31) }
        ensures value { TryGives (λ _. state_view self.new) result
            (meaning.clip_added (state_view self.old) group.now (product_view self.old.made product) (wanted_view asked)) }
        ensures composed { OnOk result (IsComposed self.new) }
    {
        let cut = cut_of(group.place, product.frames, asked.first, asked.last)?;
        let span = Span {
            first: Pos(cut.first),
            last: Pos(cut.last),
        };
        let entry = Entry::Clip {
            unit: product.unit,
            span,
            filters: FilterList::new(alloc),
        };
        edited(group.place, self.level.last().append(entry))
    }

    /// A producer: what its word asks for, what it makes of that, and the clip of it.
    pub(crate) fn producer<H: Host>(
        &mut self,
        alloc: Global,
        group: &Group,
        own: &Object<'_>,
        host: &mut H,
    ) -> Result<(), BuildFault>
        requires composed { IsComposed self.old }
        requires own { own.now.words.now ≡ group.now.props }
        ensures goes { (files : Files) → TellsFiles files (composing.producer files no_words (state_view self.old) group.now) (H.state host.old) →
            Goes (λ _. state_view self.new) result (composing.producer files no_words (state_view self.old) group.now) (H.state host.old) (H.state host.new) }
        ensures composed { OnOk result (IsComposed self.new) }
        ensures counts { CountsBuildLoads result (H.state host.old) (H.state host.new) }
        ensures rest { OnlyLoads (H.state host.old) (H.state host.new) }
    {
        let (origin, asked) = self.asked_for(group, own)?;
        let product = self
            .made
            .product_of(alloc, &self.profile, group.place, origin, asked, host)?;
        Ok(self.clip_added(alloc, group, product, asked)?)
    }
}
