//! Laws of flows. Each function is its contract alone.
ghost use Rattle.std.specs.Prelude.{◌<◌, ◌^◌, IsSome};
ghost use Rattle.bl_flow.specs.{Cuts.Meets, MaxFlow.IsMaxFlow, declared.network.FlowResult.FlowResult, declared.network.Network.Network};
ghost use Rattle.bl_flow.specs.Networks.{InRange, total_weight, weight_at};

/// A network that `max_flow` takes has a maximum flow, with the cut of that weight nearest the starts.
pub fn some_flow_is_greatest()
    ensures { (n : Network) → InRange n → Meets n (λ v. IsSome (weight_at n v)) → total_weight n < 2 ^ 63 → (r : FlowResult) × IsMaxFlow n r }
{}
