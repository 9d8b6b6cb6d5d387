// The enums of the book, from their numbers.
ghost use Rattle.std.specs.Prelude.{◌≡◌};
ghost use Rattle.format.specs.Enumeration.{status_of, forecast_of, resource_kind_of, accrual_of, change_status_of, region_of};

use crate::{Accrual, ChangeStatus, EtcTechnique, Region, ResourceKind, Status};

impl From<u64> for Status {
    ghost from_gives = { λ v status. status ≡ status_of v };

    #[tactic(auto, unfolding(crate::specs::Enumeration::status_of))]
    fn from(v: u64) -> Status {
        match v {
            0 => Status::NotStarted,
            1 => Status::InProgress,
            _ => Status::Completed,
        }
    }
}

impl From<u64> for EtcTechnique {
    ghost from_gives = { λ v forecast. forecast ≡ forecast_of v };

    #[tactic(auto, unfolding(crate::specs::Enumeration::forecast_of))]
    fn from(v: u64) -> EtcTechnique {
        match v {
            0 => EtcTechnique::Remaining,
            1 => EtcTechnique::Planned,
            2 => EtcTechnique::Cpi,
            _ => EtcTechnique::CpiSpi,
        }
    }
}

impl From<u64> for ResourceKind {
    ghost from_gives = { λ v kind. kind ≡ resource_kind_of v };

    #[tactic(auto, unfolding(crate::specs::Enumeration::resource_kind_of))]
    fn from(v: u64) -> ResourceKind {
        match v {
            0 => ResourceKind::Labor,
            1 => ResourceKind::Nonlabor,
            _ => ResourceKind::Material,
        }
    }
}

impl From<u64> for Accrual {
    ghost from_gives = { λ v accrual. accrual ≡ accrual_of v };

    #[tactic(auto, unfolding(crate::specs::Enumeration::accrual_of))]
    fn from(v: u64) -> Accrual {
        match v {
            0 => Accrual::Start,
            1 => Accrual::End,
            _ => Accrual::Uniform,
        }
    }
}

impl From<u64> for ChangeStatus {
    ghost from_gives = { λ v status. status ≡ change_status_of v };

    #[tactic(auto, unfolding(crate::specs::Enumeration::change_status_of))]
    fn from(v: u64) -> ChangeStatus {
        match v {
            0 => ChangeStatus::Pending,
            1 => ChangeStatus::Approved,
            _ => ChangeStatus::NotApproved,
        }
    }
}

impl From<u64> for Region {
    ghost from_gives = { λ v region. region ≡ region_of v };

    #[tactic(auto, unfolding(crate::specs::Enumeration::region_of))]
    fn from(v: u64) -> Region {
        match v {
            0 => Region::None,
            _ => Region::Brazil,
        }
    }
}
