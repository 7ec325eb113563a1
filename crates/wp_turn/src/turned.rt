ghost use Rattle.std.specs.Prelude.{◌≡◌, ◌<◌, ◌++◌, ◌∷◌, [], List, ℕ, length};
ghost use Rattle.wp_turn.specs.Rule.{most_steps};

/// A value that answers calls one after the other. It stands for a list of entries, numbered from 0, of which each call
/// appends one, and it has a setting that never changes.
pub trait Turned {
    /// What a call leaves in the list. Contracts alone name it.
    type Entry;

    /// What every call reads and none changes. Contracts alone name it.
    type Setting;

    /// What a call is handed.
    type Ready;

    /// What a call answers.
    type Out;

    /// The list of entries.
    ghost entries: { Self → List Self.Entry };

    /// The setting.
    ghost setting: { Self → Self.Setting };

    /// Whether what a call is handed fits the setting.
    ghost fits: { Self.Setting → Self.Ready → Type 0 };

    /// The entry of a call, by the setting, the entries before, the caller and what the call is handed.
    ghost entry: { Self.Setting → List Self.Entry → ℕ → Self.Ready → Self.Entry };

    /// The answer of a call, by the same four.
    ghost answer: { Self.Setting → List Self.Entry → ℕ → Self.Ready → Self.Out };

    /// How many entries the list has.
    fn count(&self) -> u64
        ensures { result ≡ length (entries self.now) };

    /// One call. It appends its entry to the list, takes no memory and leaves the setting.
    fn step(&mut self, caller: u32, ready: Self::Ready) -> Self::Out
        requires fits { fits (setting self.old) ready }
        requires room { length (entries self.old) < most_steps }
        ensures appends { entries self.new ≡ entries self.old
            ++ entry (setting self.old) (entries self.old) caller ready ∷ [] }
        ensures answers { result ≡ answer (setting self.old) (entries self.old) caller ready }
        ensures setting { setting self.new ≡ setting self.old };
}
