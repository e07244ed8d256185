//! Formulas by which a number that an owner set makes a weight or a limit.
ghost use Rattle.std.specs.Prelude.{◌≡◌, IfSome, IfNone};
ghost use Rattle.bw_owned.specs.Formulas.{weight_formula_number, limit_formula_number};
ghost use Rattle.bw_owned.specs.Formulas.{IsNumberOfNoFormula};

/// A formula of a weight.
#[derive(Clone, Copy, Debug, PartialEq, Eq)]
pub enum WeightFormula {
    /// 1: `cpu.shares`, by runc before 1.3.2 and crun before 1.23.
    SharesLinear,
    /// 2: `cpu.shares`, by runc from 1.3.2 on and crun from 1.23 on.
    SharesLogarithmic,
    /// 3: a request in thousandths of a CPU, whose shares kubelet has and formula 1 converts.
    RequestLinear,
    /// 4: a request in thousandths of a CPU, whose shares formula 2 converts.
    RequestLogarithmic,
    /// 5: `CPUShares=` of a unit, by systemd.
    UnitShares,
    /// 6: `CPUWeight=` of a unit, by systemd.
    UnitWeight,
}

impl WeightFormula {
    /// The formula of a number of 1 to 6, None of any other.
    pub fn of_number(number: u32) -> Option<WeightFormula>
        ensures some { IfSome result (λ formula. weight_formula_number formula ≡ number) }
        ensures none { IfNone result (IsNumberOfNoFormula weight_formula_number number) }
    {
        match number {
            1 => Some(WeightFormula::SharesLinear),
            2 => Some(WeightFormula::SharesLogarithmic),
            3 => Some(WeightFormula::RequestLinear),
            4 => Some(WeightFormula::RequestLogarithmic),
            5 => Some(WeightFormula::UnitShares),
            6 => Some(WeightFormula::UnitWeight),
            _ => None,
        }
    }
}

/// A formula of a limit.
#[derive(Clone, Copy, Debug, PartialEq, Eq)]
pub enum LimitFormula {
    /// 1: a limit in thousandths of a CPU, by kubelet.
    Thousandths,
    /// 2: `NanoCpus` of a container in billionths of a CPU, by docker.
    Billionths,
    /// 3: `CpuQuota` of a container in microseconds of its period, by docker.
    Quota,
    /// 4: `CPUQuotaPerSecUSec` of a unit in microseconds of each second, by systemd.
    PerSecond,
}

impl LimitFormula {
    /// The formula of a number of 1 to 4, None of any other.
    pub fn of_number(number: u32) -> Option<LimitFormula>
        ensures some { IfSome result (λ formula. limit_formula_number formula ≡ number) }
        ensures none { IfNone result (IsNumberOfNoFormula limit_formula_number number) }
    {
        match number {
            1 => Some(LimitFormula::Thousandths),
            2 => Some(LimitFormula::Billionths),
            3 => Some(LimitFormula::Quota),
            4 => Some(LimitFormula::PerSecond),
            _ => None,
        }
    }
}
