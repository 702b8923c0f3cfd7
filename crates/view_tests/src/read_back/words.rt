//! The words of a table, as docs/SCRIPTS.md has them.
use once_machine::step::{Place, Rest, Step};

/// Where a task stands.
pub fn stand_word(step: Option<&Step<u64, u64>>) -> &'static str {
    match step {
        None => "-",
        Some(Step::Resting(Rest::Start)) => "new",
        Some(Step::Resting(Rest::Wait(_, _))) => "waits",
        Some(Step::Resting(Rest::Run(_))) => "holds",
        Some(Step::UnderWay(place)) => step_word(place),
        Some(Step::Finished) => "gone",
    }
}

fn step_word(place: &Place<u64, u64>) -> &'static str {
    match place {
        Place::Start => "> start",
        Place::TryQuick => "> quick claim",
        Place::DoorGet => "> get door",
        Place::DoorPut => "> put door",
        Place::CountIn(_) => "> count in",
        Place::WaitLoad(_, _) => "> load",
        Place::Look(_, _) => "> look",
        Place::List(_, _, _) => "> list",
        Place::Run(_) => "> poll init",
        Place::Put(_) => "> put value",
        Place::Fast(_) => "> fast release",
        Place::AddOne(_) => "> add one",
        Place::DoorAgain(_) => "> get door again",
        Place::Release(_, _) => "> release",
        Place::Leave(_, _, _) => "> leave",
        Place::CountOut(_) => "> count out",
        Place::DoorTake(_) => "> take door",
    }
}

/// The ticket of a task that waits, is about to, or is about to leave.
pub fn ticket_of(step: Option<&Step<u64, u64>>) -> Option<u64> {
    match step? {
        Step::Resting(Rest::Wait(_, ticket)) => *ticket,
        Step::UnderWay(Place::WaitLoad(_, ticket)) => *ticket,
        Step::UnderWay(Place::Look(_, ticket)) => *ticket,
        Step::UnderWay(Place::List(_, ticket, _)) => *ticket,
        Step::UnderWay(Place::Leave(_, ticket, _)) => Some(*ticket),
        _ => None,
    }
}
