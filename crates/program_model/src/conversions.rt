ghost use Rattle.std.specs.Prelude.{◌≡◌};
ghost use Rattle.program_model.specs.Conversions.{deck_status, schedule_status, script_status, log_status, source_status, link_status, save_status, refusal_by_deck};
ghost use Rattle.program_model.specs.declared.refusals.AsmRefusal.TheVariants as source;
ghost use Rattle.program_model.specs.declared.refusals.LinkRefusal.TheVariants as link;
ghost use Rattle.program_model.specs.declared.refusals.SaveRefusal.TheVariants as save;
ghost use Rattle.program_model.specs.declared.status.Status.TheVariants as status;

use crate::refusals::{AsmRefusal, AuditRefusal, LinkRefusal, SaveRefusal};
use crate::status::Status;
use deck_model::decks::DeckRefusal;
use esa_model::memory::NoMemory;
use run_model::faults::ScriptRefusal;
use run_model::logs::MigrateRefusal;
use run_model::schedules::ScheduleRefusal;
use std::alloc::AllocError;

impl From<AllocError> for AsmRefusal {
    ghost from_gives = { λ _ e. e ≡ source.NoMemory };

    fn from(_: AllocError) -> Self {
        AsmRefusal::NoMemory
    }
}

impl From<AllocError> for LinkRefusal {
    ghost from_gives = { λ _ e. e ≡ link.NoMemory };

    fn from(_: AllocError) -> Self {
        LinkRefusal::NoMemory
    }
}

impl From<DeckRefusal> for LinkRefusal {
    ghost from_gives = { λ r e. e ≡ refusal_by_deck r };

    fn from(refusal: DeckRefusal) -> Self {
        match refusal {
            DeckRefusal::NoMemory => LinkRefusal::NoMemory,
            other => LinkRefusal::Deck(other),
        }
    }
}

impl From<AllocError> for SaveRefusal {
    ghost from_gives = { λ _ e. e ≡ save.NoMemory };

    fn from(_: AllocError) -> Self {
        SaveRefusal::NoMemory
    }
}

impl From<AllocError> for Status {
    ghost from_gives = { λ _ e. e ≡ status.NoMemory };

    fn from(_: AllocError) -> Self {
        Status::NoMemory
    }
}

impl From<NoMemory> for Status {
    ghost from_gives = { λ _ e. e ≡ status.NoMemory };

    fn from(_: NoMemory) -> Self {
        Status::NoMemory
    }
}

impl From<DeckRefusal> for Status {
    ghost from_gives = { λ r e. e ≡ deck_status r };

    fn from(refusal: DeckRefusal) -> Self {
        match refusal {
            DeckRefusal::NoMemory => Status::NoMemory,
            other => Status::DeckRefused(other),
        }
    }
}

impl From<ScheduleRefusal> for Status {
    ghost from_gives = { λ r e. e ≡ schedule_status r };

    fn from(refusal: ScheduleRefusal) -> Self {
        match refusal {
            ScheduleRefusal::NoMemory => Status::NoMemory,
            other => Status::ScheduleRefused(other),
        }
    }
}

impl From<ScriptRefusal> for Status {
    ghost from_gives = { λ r e. e ≡ script_status r };

    fn from(refusal: ScriptRefusal) -> Self {
        match refusal {
            ScriptRefusal::NoMemory => Status::NoMemory,
            other => Status::ScriptRefused(other),
        }
    }
}

impl From<MigrateRefusal> for Status {
    ghost from_gives = { λ r e. e ≡ log_status r };

    fn from(refusal: MigrateRefusal) -> Self {
        match refusal {
            MigrateRefusal::NoMemory => Status::NoMemory,
            other => Status::LogRefused(other),
        }
    }
}

impl From<AsmRefusal> for Status {
    ghost from_gives = { λ r e. e ≡ source_status r };

    fn from(refusal: AsmRefusal) -> Self {
        match refusal {
            AsmRefusal::NoMemory => Status::NoMemory,
            other => Status::SourceRefused(other),
        }
    }
}

impl From<LinkRefusal> for Status {
    ghost from_gives = { λ r e. e ≡ link_status r };

    fn from(refusal: LinkRefusal) -> Self {
        match refusal {
            LinkRefusal::NoMemory => Status::NoMemory,
            other => Status::LinkRefused(other),
        }
    }
}

impl From<SaveRefusal> for Status {
    ghost from_gives = { λ r e. e ≡ save_status r };

    fn from(refusal: SaveRefusal) -> Self {
        match refusal {
            SaveRefusal::NoMemory => Status::NoMemory,
            other => Status::SaveRefused(other),
        }
    }
}

impl From<AuditRefusal> for Status {
    ghost from_gives = { λ r e. e ≡ status.AuditNo r };

    fn from(refusal: AuditRefusal) -> Self {
        Status::AuditNo(refusal)
    }
}
