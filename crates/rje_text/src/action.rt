//! Carriage control (own profile).
ghost use Rattle.std.specs.Prelude.{◌≡◌, find};

/// What the carriage does after a line is printed.
#[derive(Clone, Copy, Debug, PartialEq, Eq)]
pub enum Action {
    /// No carriage control is sent: single space.
    Plain,
    /// Single space.
    Single,
    /// Double space.
    Double,
    /// Triple space.
    Triple,
    /// No space: the next line is printed over this one.
    Suppress,
    /// Skip to channel 1, the head of the next form.
    Ch1,
    Ch2,
    Ch3,
    Ch4,
    Ch5,
    Ch6,
    Ch7,
    Ch8,
    Ch9,
    Ch10,
    Ch11,
    Ch12,
}

/// The actions that have a code.
const CODED: [Action; 16] = [
    Action::Single,
    Action::Double,
    Action::Triple,
    Action::Suppress,
    Action::Ch1,
    Action::Ch2,
    Action::Ch3,
    Action::Ch4,
    Action::Ch5,
    Action::Ch6,
    Action::Ch7,
    Action::Ch8,
    Action::Ch9,
    Action::Ch10,
    Action::Ch11,
    Action::Ch12,
];

impl Action {
    ghost use Rattle.rje_text.specs.Action.{code_of, action_of};

    /// The action that this byte asks for after an ESC; `None` for a byte that is no action's code.
    #[tactic(auto, unfolding(crate::specs::Action::action_of))]
    pub fn of(code: u8) -> Option<Action>
        ensures { result ≡ action_of code }
    {
        with_code(&CODED, code)
    }

    /// The byte of this action after an ESC; Plain has none.
    pub fn code(self) -> Option<u8>
        ensures { result ≡ code_of self }
    {
        match self {
            Action::Plain => None,
            Action::Single => Some(0x61),
            Action::Double => Some(0xE2),
            Action::Triple => Some(0xE3),
            Action::Suppress => Some(0xD4),
            Action::Ch1 => Some(0xC1),
            Action::Ch2 => Some(0xC2),
            Action::Ch3 => Some(0xC3),
            Action::Ch4 => Some(0xC4),
            Action::Ch5 => Some(0xC5),
            Action::Ch6 => Some(0xC6),
            Action::Ch7 => Some(0xC7),
            Action::Ch8 => Some(0xC8),
            Action::Ch9 => Some(0xC9),
            Action::Ch10 => Some(0xD1),
            Action::Ch11 => Some(0xD2),
            Action::Ch12 => Some(0xD3),
        }
    }
}

ghost use Rattle.rje_text.specs.Action.{has_code};

fn with_code(actions: &[Action], code: u8) -> Option<Action>
    ensures { result ≡ find (has_code code) actions.now }
{
    actions
        .iter()
        .copied()
        .find(|action| action.code() == Some(code))
}
