//! What the checker asks of the events before one.

ghost use Rattle.std.specs.Prelude.{◌≡◌};
ghost use Rattle.sf_replay_check.specs.Checker.{Known};

use sf_history::CallId;

/// The events before one, in any form that answers what is asked of them.
pub(crate) trait Past<'a, K> {
    // What is known of them.
    ghost known: { Self → Known K };

    /// Whether some lead or enter names it.
    fn is_named(&self, id: CallId) -> bool
        ensures { result ≡ (known self.now).named id };

    /// Whether anyone led the call.
    fn has_begun(&self, call: CallId) -> bool
        ensures { result ≡ (known self.now).begun call };

    /// Whether the caller led the call.
    fn was_led(&self, caller: u32, call: CallId) -> bool
        ensures { result ≡ (known self.now).led caller call };

    /// Whether the call is settled.
    fn is_settled(&self, call: CallId) -> bool
        ensures { result ≡ (known self.now).settled call };

    /// How many entered the call.
    fn joined(&self, call: CallId) -> usize
        ensures { result ≡ (known self.now).joined call };

    /// Whether the call's letters are handed out.
    fn is_handed(&self, call: CallId) -> bool
        ensures { result ≡ (known self.now).handed call };

    /// The key's current call.
    fn current_call(&self, key: &'a K) -> Option<CallId>
        ensures { result ≡ (known self.now).current key.now };

    /// The key's open call.
    fn open_call(&self, key: &'a K) -> Option<CallId>
        ensures { result ≡ (known self.now).unsettled key.now };
}
