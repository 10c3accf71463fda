//! What holds of all layouts and of their rules.
ghost use Rattle.mdg_site.specs.Laws.{DoRulesGrow, DoSitesGrow, FactsHaveBits, IsLeastGraph, NodesHaveNumbers, RowsHaveNumbers};

/// The law of numbers: nodes and rows are numbered one to one, by all numbers below their counts.
pub fn law_numbers()
    ensures nodes { NodesHaveNumbers }
    ensures rows { RowsHaveNumbers }
{}

/// The law of bits: different facts have different bits of the words.
pub fn law_bits()
    ensures { FactsHaveBits }
{}

/// The law of rules: what is given from some facts is given from more facts.
pub fn law_rules()
    ensures rules { DoRulesGrow }
    ensures sites { DoSitesGrow }
{}

/// The law of the graph: it is the least closed set, and each of its facts is given by facts of it.
pub fn law_graph()
    ensures { IsLeastGraph }
{}
