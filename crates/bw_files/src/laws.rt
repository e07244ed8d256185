//! Laws about the texts: contracts of functions with an empty body.
ghost use Rattle.std.specs.Prelude.{◌≡◌, ◌≤◌, ℕ, Ok, Some};
ghost use Rattle.bw_model.specs.Quota.{IsValid};
ghost use Rattle.bw_model.specs.declared.limits.TheConstants.{MIN_WEIGHT, MAX_WEIGHT, MAX_BURST_US};
ghost use Rattle.bw_model.specs.declared.limits.TheConstants.{MIN_PERIOD_US, MAX_PERIOD_US};
ghost use Rattle.bw_model.specs.declared.quota.Quota.{Quota};
ghost use Rattle.bw_text.specs.Words.{words};
ghost use Rattle.bw_files.specs.Reading.{weight_of, burst_of, max_of};
ghost use Rattle.bw_files.specs.Values.{IsWeightText, IsBurstText, IsMaxText};
ghost use Rattle.bw_files.specs.Writing.{weight_text, burst_text, max_text};

/// Law: the text that is written for a value denotes that value, and is read as it.
pub fn written_is_read()
    ensures weight { (n : ℕ) → MIN_WEIGHT ≤ n → n ≤ MAX_WEIGHT → IsWeightText (weight_text n) n }
    ensures weight_again { (n : ℕ) → MIN_WEIGHT ≤ n → n ≤ MAX_WEIGHT
        → weight_of (words (weight_text n)) ≡ Ok n }
    ensures burst { (n : ℕ) → n ≤ MAX_BURST_US → IsBurstText (burst_text n) n }
    ensures burst_again { (n : ℕ) → n ≤ MAX_BURST_US → burst_of (words (burst_text n)) ≡ Ok n }
    ensures max { (quota : Quota) (period : ℕ) → IsValid quota → MIN_PERIOD_US ≤ period
        → period ≤ MAX_PERIOD_US
        → IsMaxText (max_text quota period) (record { quota = quota; period = Some period }) }
    ensures max_again { (quota : Quota) (period : ℕ) → IsValid quota → MIN_PERIOD_US ≤ period
        → period ≤ MAX_PERIOD_US
        → max_of (words (max_text quota period))
        ≡ Ok (record { quota = quota; period = Some period }) }
{}
