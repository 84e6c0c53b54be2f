//! Laws of substitution.
ghost use Rattle.std.specs.Prelude.{◌≡◌, ◌≤◌, Bool, length};
ghost use Rattle.racer_base.specs.declared.ids.SiteId.{SiteId};
ghost use Rattle.access_domain.specs.declared.summary.Summary.{Summary};
ghost use Rattle.access_domain.specs.Findings.{Findings, summary_from};
ghost use Rattle.access_domain.specs.FlowContext.{FlowContext};
ghost use Rattle.access_domain.specs.Substitution.{Actuals, substituted};

/// What is found of a callee is no more in its caller's values.
pub fn substitution_adds_nothing()
    ensures records { (g : FlowContext) (actuals : Actuals) (found : Findings) (locked : Bool) (site : SiteId) →
        length (substituted g actuals found locked site).records ≤ length found.records }
    ensures wobbly { (g : FlowContext) (actuals : Actuals) (found : Findings) (locked : Bool) (site : SiteId) →
        length (substituted g actuals found locked site).wobbly ≤ length found.wobbly }
{}

/// Each summary is that of some findings.
pub fn summaries_hold_findings()
    ensures { (summary : Summary) → ((found : Findings) × (summary_from found ≡ summary)) }
{}
