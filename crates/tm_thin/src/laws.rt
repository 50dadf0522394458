//! What thinning leaves.
ghost use Rattle.tm_thin.specs.Staying.{BucketsKeepOne};

/// Of the bucket of each snapshot that goes an earlier one stays.
pub fn buckets_keep_one()
    ensures { BucketsKeepOne }
{}
