//! What holds of all valid code.
ghost use Rattle.mdg_code.specs.Laws.{DoCallsComeBack, DoLocalsAddUp, DoRunsStay, HasOneColumn, HasOneMember};

/// The law of runs: each site at which a run goes on is a site of the same function.
pub fn law_run_stays()
    ensures { DoRunsStay }
{}

/// The law of calls: a call and a load come back to a land in the same function.
pub fn law_call_comes_back()
    ensures { DoCallsComeBack }
{}

/// The law of columns: a name has one column, and two names share one only where neither has one of its own.
pub fn law_one_column()
    ensures { HasOneColumn }
{}

/// The law of members: a shared thing has at most one listed member of a name.
pub fn law_one_member()
    ensures { HasOneMember }
{}

/// The law of locals: there are none before the first site, and each site adds those of its function.
pub fn law_locals_add_up()
    ensures { DoLocalsAddUp }
{}
