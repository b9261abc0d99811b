//! What options do to the entries of the track, and tracks that begin.

ghost use Rattle.std.specs.Prelude.{◌≡◌, ◌≤◌, ◌-◌, length, IfSome, OnOk};
ghost use Rattle.std.specs.Option.{option_map};
ghost use Rattle.mlt_base.specs.Try.{TryGives};
ghost use Rattle.mlt_tree.specs.Composition.{blank as blank_of, remove as remove_of, repeat as repeat_of, split as split_of, split_at_frame as split_at_frame_of, swap as swap_of, join as join_of, joined_at as joined_at_of};
ghost use Rattle.mlt_tree.specs.Planting.{mix_kept as mix_kept_of, begin_track as begin_track_of, mixed_at as mixed_at_of, mix as mix_of};
ghost use Rattle.mlt_tree.specs.Refusing.{refusal_at as refusal_of};
ghost use Rattle.mlt_tree.specs.Units.{IsMix};
ghost use Rattle.mlt_tree.specs.declared.refusal.Cause.{Cause};
ghost use Rattle.melt_build.specs.State.{IsComposed, state_view};
ghost use Rattle.melt_build.specs.Track.{IsLastIndex};

use crate::props::{counted, timed};
use crate::refused::{at_group, at_place, at_word, edited};
use crate::state::State;
use mlt_base::limits::{MOST_ENTRIES, MOST_FRAMES};
use mlt_base::{Try, UnitId, read_whole};
use mlt_tree::{Cause, Group, Hide, Refusal};

impl State<'_> {
    /// A gap.
    #[tactic(auto, unfolding(mlt_tree::specs::Composition::blank))]
    pub(crate) fn blank(&mut self, group: &Group) -> Result<(), Try<Refusal>>
        requires { IsComposed self.old }
        ensures value { TryGives (λ _. state_view self.new) result (blank_of (state_view self.old) group.now) }
        ensures composed { OnOk result (IsComposed self.new) }
    {
        let last = at_place(group.place, timed(&self.profile, group.arg.as_str()))?;
        edited(group.place, self.level.last().blank(last))
    }

    /// The index of the last entry, where there is one.
    fn last_index(&self) -> Option<usize>
        ensures { IsLastIndex self.now.level.current.entries result }
    {
        self.level.last_list().count().checked_sub(1)
    }

    /// Removes the last entry.
    pub(crate) fn remove(&mut self, group: &Group) -> Result<(), Try<Refusal>>
        requires { IsComposed self.old }
        ensures value { TryGives (λ _. state_view self.new) result (remove_of (state_view self.old) group.now) }
        ensures composed { OnOk result (IsComposed self.new) }
    {
        let Some(last) = self.last_index() else {
            return Err(Try::Fault(no_entry(group.place)));
        };
        at_group(group.place, self.level.last().remove(last))?;
        Ok(())
    }

    /// Repeats the last entry, so that there are so many of it.
    #[tactic(auto, unfolding(mlt_tree::specs::Composition::repeat))]
    pub(crate) fn repeat(&mut self, group: &Group) -> Result<(), Try<Refusal>>
        requires { IsComposed self.old }
        ensures value { TryGives (λ _. state_view self.new) result (repeat_of (state_view self.old) group.now) }
        ensures composed { OnOk result (IsComposed self.new) }
    {
        let n = at_place(group.place, counted(1, MOST_ENTRIES, group.arg.as_str()))?;
        let Some(last) = self.last_index() else {
            return Err(Try::Fault(no_entry(group.place)));
        };
        edited(group.place, self.level.last().repeat_clip(last, n))
    }

    /// Splits the last entry at a frame.
    fn split_at_frame(&mut self, group: &Group, k: i64) -> Result<(), Try<Refusal>>
        requires { IsComposed self.old }
        ensures value { TryGives (λ _. state_view self.new) result (split_at_frame_of (state_view self.old) group.now k) }
        ensures composed { OnOk result (IsComposed self.new) }
    {
        let Some(last) = self.last_index() else {
            return Err(Try::Fault(no_entry(group.place)));
        };
        edited(group.place, self.level.last().split(last, k))
    }

    /// Splits the last entry.
    #[tactic(auto, unfolding(mlt_tree::specs::Composition::split))]
    pub(crate) fn split(&mut self, group: &Group) -> Result<(), Try<Refusal>>
        requires { IsComposed self.old }
        ensures value { TryGives (λ _. state_view self.new) result (split_of (state_view self.old) group.now) }
        ensures composed { OnOk result (IsComposed self.new) }
    {
        let k = at_word(group.place, read_whole(group.arg.as_str()))?;
        self.split_at_frame(group, k)
    }

    /// Exchanges the last two entries.
    pub(crate) fn swap(&mut self, group: &Group) -> Result<(), Try<Refusal>>
        requires { IsComposed self.old }
        ensures value { TryGives (λ _. state_view self.new) result (swap_of (state_view self.old) group.now) }
        ensures composed { OnOk result (IsComposed self.new) }
    {
        at_group(group.place, self.level.last().swap_last())?;
        Ok(())
    }

    /// The last n entries as one clip of a new unit.
    fn joined(&mut self, group: &Group, n: u32) -> Result<(), Try<Refusal>>
        requires composed { IsComposed self.old }
        requires some { 1 ≤ n }
        ensures value { TryGives (λ _. state_view self.new) result (joined_at_of (state_view self.old) group.now (length self.old.level.current.entries - n) n) }
        ensures composed { OnOk result (IsComposed self.new) }
    {
        let n = n as usize;
        let unit = self.made.graph.next_id();
        let list = self.level.last();
        let at = list.count().saturating_sub(n);
        let entries = edited(group.place, list.join(at, n, unit))?;
        self.made.graph.add_list(entries)?;
        Ok(())
    }

    /// Joins the last entries.
    #[tactic(auto, unfolding(mlt_tree::specs::Composition::join))]
    pub(crate) fn join(&mut self, group: &Group) -> Result<(), Try<Refusal>>
        requires { IsComposed self.old }
        ensures value { TryGives (λ _. state_view self.new) result (join_of (state_view self.old) group.now) }
        ensures composed { OnOk result (IsComposed self.new) }
    {
        let n = at_place(group.place, counted(1, MOST_ENTRIES, group.arg.as_str()))?;
        self.joined(group, n)
    }

    /// The last two entries, which overlap by n frames or by as many as the shorter one has.
    fn mixed(&mut self, group: &Group, n: u32) -> Result<(), Try<Refusal>>
        requires composed { IsComposed self.old }
        requires some { 1 ≤ n }
        ensures value { TryGives (λ _. state_view self.new) result (mixed_at_of (state_view self.old) group.now (length self.old.level.current.entries - 2) n) }
        ensures composed { OnOk result (IsComposed self.new) }
    {
        let unit = self.made.graph.next_id();
        let list = self.level.last();
        let at = list.count().saturating_sub(2);
        let parts = edited(group.place, list.mix(at, n, unit))?;
        self.made.graph.add_mix(parts)?;
        self.last_mix = Some(unit);
        Ok(())
    }

    /// Makes the last two entries overlap.
    #[tactic(auto, unfolding(mlt_tree::specs::Planting::mix))]
    pub(crate) fn mix(&mut self, group: &Group) -> Result<(), Try<Refusal>>
        requires { IsComposed self.old }
        ensures value { TryGives (λ _. state_view self.new) result (mix_of (state_view self.old) group.now) }
        ensures composed { OnOk result (IsComposed self.new) }
    {
        let n = at_place(group.place, counted(1, MOST_FRAMES, group.arg.as_str()))?;
        self.mixed(group, n)
    }

    /// The last mix, where the track has no entry, so that it stays when a track begins.
    fn mix_kept(&self) -> Option<UnitId>
        requires { IsComposed self.now }
        ensures value { option_map (λ unit. unit.0) result ≡ mix_kept_of self.now.level.current.entries (option_map (λ unit. unit.0) self.now.last_mix) }
        ensures mix { IfSome result (λ unit. IsMix self.now.made.graph unit.0) }
    {
        if self.level.last_list().count() == 0 {
            self.last_mix
        } else {
            None
        }
    }

    /// Begins a track that gives no picture, or no sound.
    pub(crate) fn begin_track(
        &mut self,
        group: &Group,
        video: bool,
        audio: bool,
    ) -> Result<(), Try<Refusal>>
        requires { IsComposed self.old }
        ensures value { TryGives (λ _. state_view self.new) result (begin_track_of video audio (state_view self.old) group.now) }
        ensures composed { OnOk result (IsComposed self.new) }
    {
        let mix = self.mix_kept();
        edited(group.place, self.level.new_track(Hide { video, audio }))?;
        self.last_mix = mix;
        Ok(())
    }
}

/// There is no entry.
pub(crate) fn no_entry(place: u32) -> Refusal
    ensures { result ≡ refusal_of place (Cause.TooFew 1 0) }
{
    Refusal::at(place, Cause::TooFew { asked: 1, there: 0 })
}
