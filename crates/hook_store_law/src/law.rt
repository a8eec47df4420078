//! The law that the hook's store keeps.

use filter_state::Edit;
use mask_table::MaskLaw;
use miniq_pair::HeadLaw;
use pin_store::Store;
use store_history::Law;

/// The law of the hook's store: what `hook_law` asks of its commits, at this project's terms, and that the
/// stamps of each root rise. Nothing is made of this type.
pub struct HookLaw;

/// The store of a hook: blocks and roots that keep the law.
pub type HookStore = Store<HookLaw>;

impl Law for HookLaw {
    ghost use Rattle.hook_meaning.proofs.Opening.{hook_opens, hook_rises};
    ghost use Rattle.root_word_laws.proofs.Words.{none_rise};
    ghost use Rattle.hook_meaning.specs.Kept.{KeepsHook};

    type Entry = Edit;

    ghost keeps = { KeepsHook };

    ghost opens = { record { law = hook_opens; stamps = none_rise } };

    ghost rises = { λ h b c later kept. record {
      law = hook_rises h b c later kept.law;
      stamps = kept.stamps;
    } };
}

// The tables of a hook are those of the plain state. A sound state has few.
impl HeadLaw for HookLaw {
    ghost use Rattle.hook_meaning.specs.Told.{heads_after};
    ghost use Rattle.hook_meaning.proofs.Heading.{heads_told, heads_most};

    ghost heads = { λ h k hook. heads_after h k hook };

    ghost tells = { λ h b n hook kept. heads_told h b n hook kept.law };

    ghost few = { λ h b k hook kept. heads_most h b k hook kept.law };
}

// A mask stands where a head names it. Its words and its filters are those of the plain state, and each
// filter has its actions at the slots to which the commits put them.
impl MaskLaw for HookLaw {
    ghost use Rattle.hook_meaning.specs.Told.{stands_at, words_after, filters_after};
    ghost use Rattle.hook_meaning.proofs.Masking.{slot_stood, mask_told};
    ghost use Rattle.hook_meaning.proofs.Bucketing.{bucket_told};
    ghost use Rattle.hook_meaning.proofs.Matching.{keys_distinct};

    ghost stands = { λ h slot mask. stands_at h slot mask };

    ghost words = { λ h k mask. words_after h k mask };

    ghost filters = { λ h k mask. filters_after h k mask };

    ghost stood = { λ h b n slot mask kept. slot_stood h b n slot mask kept.law };

    ghost tells = { λ h b n slot mask kept. mask_told h b n slot mask kept.law };

    ghost buckets = { λ h b n slot mask bucket record_read kept.
        bucket_told h b n slot mask bucket record_read kept.law };

    ghost distinct = { λ h b k mask one other f g kept. keys_distinct h b k mask one other f g kept.law };
}
