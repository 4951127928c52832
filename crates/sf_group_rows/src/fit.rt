//! Values that calls may be settled with.
ghost use Rattle.std.specs.Prelude.{ℕ, List, ◌++◌};
ghost use Rattle.sf_history.specs.declared.call.CallId.{CallId};
ghost use Rattle.sf_history.specs.declared.event.Event.{Event};

use sf_history::Share;

/// A value that calls may be settled with. It may carry a fact about its place, its call and what happened so far, which
/// whoever settles a call with it has to know, and which each letter then brings.
pub trait Fit: Share {
    ghost fits: { ℕ → CallId → Self → List (Event ℕ Self) → Type 0 } = { λ _ _ _ _. Unit {0} };

    // What fits once fits from then on.
    ghost lasts: { (place : ℕ) (call : CallId) (value : Self) (seen more : List (Event ℕ Self))
        → fits place call value seen → fits place call value (seen ++ more) };
}

impl Fit for () {
    ghost lasts = { λ _ _ _ _ _ f. f };
}
