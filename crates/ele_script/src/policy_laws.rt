//! Laws about the words of policies. A law is the contract of a function that does nothing.
ghost use Rattle.ele_script.specs.OnePolicy.{OnePolicy};
ghost use Rattle.ele_script.specs.PolicyBack.{PolicyBack};

/// No word is read as two policies, or with two faults, or as a policy and with a fault.
#[tactic(auto, using(crate::proofs::Policies::one_policy))]
pub fn one_policy()
    ensures { OnePolicy }
{}

/// The word that a policy is printed as reads back as that policy.
#[tactic(auto, using(crate::proofs::PolicyBack::policy_back))]
pub fn policy_back()
    ensures { PolicyBack }
{}
