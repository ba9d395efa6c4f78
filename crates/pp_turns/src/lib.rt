//! What a going call of a map over a pool makes of its pass, and how the clauses of its turns and of its answers follow: definitions and
//! lemmas alone, said once for every structure. A structure says how its steps are read, and has the clauses of its turns from here.
#![tactic(auto)]
