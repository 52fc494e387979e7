// What a rule's action says.
ghost use Rattle.std.specs.Prelude.{MatchResult, ◌≡◌, ◌<◌};
ghost use Rattle.records.specs.Actions.{action_number};
ghost use Rattle.records.specs.Layout.{last_action};

#[derive(Clone, Copy, Debug, PartialEq, Eq)]
pub enum Action {
    Permit = 0,
    Deny = 1,
    PermitLog = 2,
    DenyLog = 3,
}

// A byte that is no action's number.
#[derive(Clone, Copy, Debug, PartialEq, Eq)]
pub struct UnknownAction(pub u8);

impl TryFrom<u8> for Action {
    type Error = UnknownAction;

    ghost try_from_gives = { λ number r. MatchResult r (λ action. action_number action ≡ number) (λ _. last_action < number) };

    fn try_from(number: u8) -> Result<Action, UnknownAction> {
        match number {
            0 => Ok(Action::Permit),
            1 => Ok(Action::Deny),
            2 => Ok(Action::PermitLog),
            3 => Ok(Action::DenyLog),
            _ => Err(UnknownAction(number)),
        }
    }
}

impl From<Action> for u8 {
    ghost from_gives = { λ action number. number ≡ action_number action };

    fn from(action: Action) -> u8 {
        action as u8
    }
}

impl From<Action> for u32 {
    ghost from_gives = { λ action number. number ≡ action_number action };

    fn from(action: Action) -> u32 {
        action as u32
    }
}
