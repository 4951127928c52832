//! What one does with a fill.
ghost use Rattle.std.specs.Prelude.{◌≡◌, ℕ, List, All, vec_len};
ghost use Rattle.sf_history.specs.declared.call.CallId.{CallId};
ghost use Rattle.sf_fill_open.specs.Opened.{IsNewGetter};

use sf_fill::{Fill, Getter, Naming};
use sf_loaders::{LoadPath, Origin};

/// What one does with a fill and its getters.
pub trait Body {
    /// What comes of it.
    type Answer;

    /// What it needs of the number of getters, and of what the origin states of a key, a run and the bytes that this loaded.
    ghost wants: { Self → ℕ → (List ℕ → CallId → List ℕ → Type 0) → Type 0 };

    /// How many events each getter has room to log.
    ghost room: { Self → ℕ };

    /// What it says of its answer.
    ghost ends: { Self → Self.Answer → Type 0 };

    /// Does it, once. The getters stand in the order of their loaders.
    fn run<
        'd,
        D: Naming + Send + Sync,
        N: Naming + Send + Sync,
        O: Origin + Send + Sync,
        L: LoadPath<Origin = O> + Send + Drop,
    >(self, fill: &Fill<'d, D, N, O>, getters: Vec<Getter<'d, D, N, O, L>>) -> Self::Answer
        requires wants { wants self N.getters O.loaded }
        requires getters { vec_len getters ≡ N.getters }
        requires new { All (IsNewGetter N.group (room self)) getters.items }
        ensures { ends self result };
}
