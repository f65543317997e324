//! Views that are handed out one by one.
ghost use Rattle.std.specs.Prelude.{◌≡◌, ◌≤◌, ◌<◌, [], ◌∷◌, ◌++◌, All, length, IfSome, IfNone, IfOk, IfErr, IsOk, OnOk, OnErr};
ghost use Rattle.logbook.specs.Pages.{Book};
ghost use Rattle.published_table.specs.{Views.{IsNew, room_of, views_of}, declared.terms.Terms.{Terms as ReadingTerms}};

use super::View;
use std::alloc::{AllocError, Global};

/// Views, to be handed out one by one.
#[derive(Drop)]
pub struct Views {
    views: Vec<View>,
}

impl Views {
    /// No views. It takes no memory.
    pub fn new(alloc: Global) -> Views
        ensures { views_of result ≡ [] }
    {
        Views {
            views: Vec::new(alloc),
        }
    }

    /// No views, and room for so many.
    pub fn with_room(alloc: Global, views: u32) -> Result<Views, AllocError>
        ensures none { IfOk result (λ made. views_of made ≡ []) }
        ensures room { IfOk result (λ made. views ≤ room_of made) }
    {
        Ok(Views {
            views: Vec::with_capacity(alloc, views as usize)?,
        })
    }

    pub fn len(&self) -> usize
        ensures { result ≡ length (views_of self.now) }
    {
        self.views.len()
    }

    /// Adds a view at the end. Where there is room it doesn't fail.
    pub fn push(&mut self, view: View) -> Result<(), View>
        ensures ok { OnOk result (views_of self.new ≡ views_of self.old ++ view ∷ []) }
        ensures err { OnErr result (views_of self.new ≡ views_of self.old) }
        ensures back { IfErr result (λ back. back ≡ view) }

        ensures fits { length (views_of self.old) < room_of self.old → IsOk result }
        ensures room { room_of self.old ≤ room_of self.new }
    {
        match self.views.push(view) {
            Ok(()) => Ok(()),
            Err(failed) => Err(failed.value),
        }
    }

    /// Takes the last view out, if there is one.
    pub fn pop(&mut self) -> Option<View>
        ensures some { IfSome result (λ view. views_of self.old ≡ views_of self.new ++ view ∷ []) }
        ensures none { IfNone result ((views_of self.old ≡ []) × (views_of self.new ≡ [])) }
        ensures each { (publisher : Book) (terms : ReadingTerms) → All (IsNew publisher terms) (views_of self.old)
            → All (IsNew publisher terms) (views_of self.new) × IfSome result (IsNew publisher terms) }
    {
        self.views.pop()
    }
}
