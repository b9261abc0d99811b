//! Pictures that were fitted into the frame, by the numbers of their sources.

ghost use Rattle.std.specs.Prelude.{◌≡◌, ℕ, ◌+◌, ◌*◌, ◌<◌, ◌≤◌, ◌∷◌, ◌++◌, [], length, map, true, false, IfOk, IfSome, IfNone};
ghost use Rattle.std.specs.Arc.{arc_value};
ghost use Rattle.mlt_base.specs.ProfileView.{measures_of};
ghost use Rattle.mlt_eval.specs.Entries.{fit_of};
ghost use Rattle.mlt_eval.specs.Fitted.{is_fitted, fit_at};
ghost use Rattle.mlt_tree.specs.Show.{Fit, fitted_picture};

use mlt_base::{Profile, SourceNo, Still};
use mlt_source::SourceTable;
use std::alloc::{AllocError, Global};
use std::marker::Model;
use std::sync::Arc;

/// A picture and the number of its source.
#[derive(Drop)]
struct Entry {
    source: SourceNo,
    picture: Arc<Still>,
}

/// Pictures that were fitted into the frame, which other threads may hold too.
///
/// Contracts see them as the list of the sources' numbers and pictures in the order in which they were
/// added, and how many more can be added. No call but [`Fitted::new`] takes memory for their places.
#[derive(Drop)]
pub struct Fitted {
    entries: Vec<Entry>,
}

impl Model for Fitted {
    ghost use Rattle.std.specs.Prelude.{◌-◌, map, vec_len, vec_capacity};
    ghost use Rattle.mlt_eval.specs.Fitted.{FittedPictures};

    ghost Value = { FittedPictures };

    ghost use Rattle.mlt_eval.specs.Entries.{fit_of};

    ghost view = { λ f. record { fits = map fit_of f.entries.items; spare = vec_capacity f.entries - vec_len f.entries } };
}

impl Fitted {
    /// No picture, with room for `spare`.
    pub fn new(alloc: Global, spare: u32) -> Result<Fitted, AllocError>
        ensures { IfOk result (λ fitted. fitted ≡ record { fits = []; spare = spare }) }
    {
        Ok(Fitted {
            entries: Vec::with_capacity(alloc, spare as usize)?,
        })
    }

    /// Lets all pictures go, and keeps their room.
    pub fn clear(&mut self)
        ensures { self.new ≡ record { fits = []; spare = length self.old.fits + self.old.spare } }
    {
        self.entries.clear();
    }

    /// How many more pictures can be added.
    pub fn spare(&self) -> usize
        ensures { result ≡ self.now.spare }
    {
        self.entries.capacity() - self.entries.len()
    }

    /// Adds a picture, behind those that there are. The answer is false exactly where there is no room;
    /// the picture then goes. It takes no memory.
    pub fn add(&mut self, no: SourceNo, still: Arc<Still>) -> bool
        ensures added { 0 < self.old.spare → (result ≡ true)
            × (self.new.fits ≡ self.old.fits ++ record { source = no.0; picture = arc_value still } ∷ [])
            × (self.new.spare + 1 ≡ self.old.spare) }
        ensures full { self.old.spare ≡ 0 → (result ≡ false) × (self.new ≡ self.old) }
    {
        if self.entries.len() == self.entries.capacity() {
            return false;
        }
        self.entries.push_reserved(Entry {
            source: no,
            picture: still,
        });
        true
    }

    /// The picture of a source in a frame of the profile: its colour everywhere, or the picture fitted.
    /// It is refused where memory is wanting.
    pub fn make(
        alloc: Global,
        table: &SourceTable,
        no: SourceNo,
        profile: &Profile,
    ) -> Result<Arc<Still>, AllocError>
        requires { no.0 < length table.now }
        ensures { IfOk result (λ still. arc_value still ≡ fitted_picture (measures_of profile.now) table.now no.0) }
    {
        let mut still = Still::new(alloc, profile.width, profile.height)?;
        table.load_into(no, still.pixels_mut(), profile);
        Ok(Arc::new(alloc, still)?)
    }

    /// The place of the first picture of a source. None exactly where there is no picture of it.
    pub fn find(&self, no: SourceNo) -> Option<usize>
        ensures some { IfSome result (λ place. (place < length self.now.fits) × ((fit_at self.now.fits place).source ≡ no.0)) }
        ensures none { IfNone result (is_fitted self.now.fits no.0 ≡ false) }
    {
        find_entry(self.entries.as_slice(), no)
    }

    /// The bytes of the picture at a place.
    pub fn pixels(&self, place: usize) -> &[u8]
        requires { place < length self.now.fits }
        ensures value { result.now ≡ (fit_at self.now.fits place).picture.pixels }
        ensures sized { length result.now ≡ (fit_at self.now.fits place).picture.width * (fit_at self.now.fits place).picture.height * 4 }
    {
        let entry = &self.entries[place];
        entry.picture.pixels()
    }
}

/// The place of the first entry of a source.
fn find_entry(entries: &[Entry], no: SourceNo) -> Option<usize>
    ensures some { IfSome result (λ place. (place < length entries.now) × ((fit_at (map fit_of entries.now) place).source ≡ no.0)) }
    ensures none { IfNone result (is_fitted (map fit_of entries.now) no.0 ≡ false) }
{
    for (place, entry) in entries.iter().enumerate() {
        if entry.source.0 == no.0 {
            return Some(place);
        }
    }
    None
}
