//! What follows from the definition of migration, as functions whose contracts are these laws.
ghost use Rattle.ulfm_filters.specs.MigrationLaws.{AllAreAcknowledged, ReadAsRunsRead};

/// An acknowledgement of 1,024 failures or more is one of all: no world has more ranks.
pub fn acknowledging_most_is_acknowledging_all()
    ensures { AllAreAcknowledged }
{}

/// A text that is to be migrated is read as a run reads it, and has the same first fault, unless its first line is a header of the second version.
pub fn texts_are_read_as_runs_read_them()
    ensures { ReadAsRunsRead }
{}
