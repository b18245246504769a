use crate::driver::Driver;
use drv_jobs::Job;
use std::marker::Model;

/// The driver with the job that it is at, beside its commands. Contracts see the record of this name of `drv_jobs`, specs/AtWork.antt.
#[derive(Drop)]
pub struct DriverAtWork {
    pub(crate) driver: Driver,
    pub(crate) job: Option<Job>,
}

impl Model for DriverAtWork {
    ghost use Rattle.std.specs.Prelude.{◌≤◌};
    ghost use Rattle.drv_jobs.specs.AtWork.{DriverAtWork as Work, owed_lines};

    ghost Value = { Work };

    ghost view = { λ w. record { driver = w.driver; job = w.job } };

    ghost invariant = { λ w. owed_lines w.job ≤ w.driver.room.reports };
}
