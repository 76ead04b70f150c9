//! Laws of jobs: functions with an empty body.
ghost use Rattle.job_laws.specs.Branches.{WorksHaveBranches};
ghost use Rattle.job_laws.specs.OneOutcome.{JobsHaveOneRun, JobsHaveOneOutcome, SameRowsAndKeysServe};
ghost use Rattle.job_laws.specs.RunsInSpaces.{RunsInSpaceAreRuns};
ghost use Rattle.job_laws.specs.SplitOutcomes.{OutcomesSplit};

/// The keys of both works and their children: what lies under a key is the key, or lies under one of its children.
pub fn works_have_branches()
    ensures { WorksHaveBranches }
{}

/// What becomes of the keys that a run of a job meets is one list, for both works.
pub fn jobs_have_one_run()
    ensures { JobsHaveOneRun }
{}

/// So its outcome is one: rows and keys as sets, and how many bases.
pub fn jobs_have_one_outcome()
    ensures { JobsHaveOneOutcome }
{}

/// The order of rows and keys is free.
pub fn same_rows_and_keys_serve()
    ensures { SameRowsAndKeysServe }
{}

/// An outcome parts the share of its key, within its budget.
pub fn outcomes_split()
    ensures { OutcomesSplit }
{}

/// A run by subtrees, in the words of the main space of a polyhedron, is a run of the job.
pub fn runs_in_space_are_runs()
    ensures { RunsInSpaceAreRuns }
{}
