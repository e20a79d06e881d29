//! Takers of records that may be cut.
ghost use Rattle.rtrace.specs.Feeding.{FaultsStay, KnowledgeStays};

use crate::count::Counting;
use rtrace_form::Records;

/// What takes records, and knows no less of cut ones.
pub trait Shortened: Records {
    /// Cut records have the first fault of the whole ones.
    ghost faults_stay: { FaultsStay Self.code Self.is_done Self.no_end };

    /// What knows cut records without a fault knows the whole ones.
    ghost knowledge_stays: { KnowledgeStays Self.code Self.knows };
}

impl Shortened for Counting {
    ghost use Rattle.rtrace.specs.CountFacts.{count_faults_stay, count_knowledge_stays};

    ghost faults_stay = { count_faults_stay };

    ghost knowledge_stays = { count_knowledge_stays };
}
