//! What chains of filters read as.
ghost use Rattle.std.specs.Prelude.{◌≡◌, ℕ, ◌+◌, ◌<◌, List, [], ◌∷◌, ◌++◌, length, drop, Some, All};
ghost use Rattle.store_history.specs.declared.history.Named.{Named};
ghost use Rattle.store_history.specs.declared.history.Commit.{Commit};
ghost use Rattle.store_history.specs.History.{root_of, first_block};
ghost use Rattle.store_history.specs.Reads.{read_all};
ghost use Rattle.pin_store.specs.declared.shape.Shape.{Shape};
ghost use Rattle.block_codec.specs.declared.filter.StoredFilter.{StoredFilter};
ghost use Rattle.block_codec.specs.declared.mask.StoredMask.{StoredMask};
ghost use Rattle.block_codec.specs.Blocks.{IsLink};
ghost use Rattle.block_codec.specs.OfReadings.Read.{filter_in};
ghost use Rattle.mask_table.specs.Buckets.{bucket_root, bucket_of};
ghost use Rattle.mask_table.specs.declared.mirrors.mirror.Mirror.{Mirror};
ghost use Rattle.mask_table.specs.declared.mirrors.mirror.KeptMask.{KeptMask};
ghost use Rattle.mask_table.specs.OfMirrors.Kept.{Stands, IsKept};
ghost use Rattle.mask_table.specs.OfMirrors.Lists.{HasFilters};
ghost use Rattle.mask_table.specs.OfMirrors.Linked.{placed, placed_in, linked};
ghost use Rattle.mask_table.specs.OfMirrors.Changing.{FilterAt, insert_at, remove_at, replace_at};
ghost use Rattle.mask_order.specs.Fitting.{FitsBlock, FitInto};

/// What the root of a standing mask's bucket names reads as the filters of the bucket, the latest first: it
/// is what the law of the hook asks of a bucket. All filters of the mask fit into blocks, and each part of
/// the chain can be linked to, so a changed chain reads too.
pub fn chains_read()
    ensures read { (mirror : Mirror) (shape : Shape) (cells : List ℕ) (roots : ℕ → Named)
        (slot last bucket : ℕ) (kept : KeptMask) (fs : List StoredFilter)
        → IsKept mirror shape cells roots → Stands mirror slot kept → HasFilters mirror slot last fs
        → bucket < kept.mask.size
        → read_all filter_in (roots (bucket_root kept.mask bucket)).chain
        ≡ Some (bucket_of kept.mask.size bucket fs) }
    ensures fit { (mirror : Mirror) (shape : Shape) (cells : List ℕ) (roots : ℕ → Named) (slot last : ℕ)
        (fs : List StoredFilter)
        → IsKept mirror shape cells roots → HasFilters mirror slot last fs → All FitsBlock fs }
    ensures bucket_fits { (size bucket : ℕ) (fs : List StoredFilter) → All FitsBlock fs
        → All FitsBlock (bucket_of size bucket fs) }
    ensures linked { (mirror : Mirror) (shape : Shape) (cells : List ℕ) (roots : ℕ → Named)
        (slot bucket place : ℕ) (kept : KeptMask)
        → IsKept mirror shape cells roots → Stands mirror slot kept → bucket < kept.mask.size
        → IsLink (first_block (drop place (roots (bucket_root kept.mask bucket)).chain)) }
{}

/// The chain of those of a bucket, of filters that were put into given blocks, reads as the filters of the
/// bucket.
pub fn placed_chains_read()
    ensures { (size bucket : ℕ) (given : List ℕ) (fs : List StoredFilter) → FitInto given fs
        → read_all filter_in (linked (placed_in size bucket (placed given fs)) [])
        ≡ Some (bucket_of size bucket fs) }
{}

/// A chain into which a filter is put, out of which one is taken or in which one takes another's place reads
/// as what the old chain read as, changed so. Where a filter stands in a chain that reads, the chain reads as
/// those in front of it, it, and others.
pub fn changed_chains_read<E>()
    ensures inserted { (h : List (Commit E)) (root b number : ℕ) (filter : StoredFilter) (edit : E)
        (fs : List StoredFilter)
        → FitsBlock filter → IsLink (first_block (root_of h root).chain)
        → read_all filter_in (root_of h root).chain ≡ Some fs
        → read_all filter_in (insert_at h root b filter number edit).named.chain ≡ Some (filter ∷ fs) }
    ensures removed { (h : List (Commit E)) (root number : ℕ) (given : List ℕ) (front : List StoredFilter)
        (old : StoredFilter) (later : List StoredFilter) (edit : E)
        → FitInto given front → IsLink (first_block (drop (length front + 1) (root_of h root).chain))
        → read_all filter_in (root_of h root).chain ≡ Some (front ++ old ∷ later)
        → read_all filter_in (remove_at h root given front number edit).named.chain ≡ Some (front ++ later) }
    ensures replaced { (h : List (Commit E)) (root number : ℕ) (given : List ℕ) (front : List StoredFilter)
        (old filter : StoredFilter) (later : List StoredFilter) (edit : E)
        → FitInto given (front ++ filter ∷ [])
        → IsLink (first_block (drop (length front + 1) (root_of h root).chain))
        → read_all filter_in (root_of h root).chain ≡ Some (front ++ old ∷ later)
        → read_all filter_in (replace_at h root given front filter number edit).named.chain
        ≡ Some (front ++ filter ∷ later) }
    ensures split { (roots : ℕ → Named) (mask : StoredMask) (handle root : ℕ) (front : List StoredFilter)
        (old : StoredFilter) (fs : List StoredFilter)
        → FilterAt roots mask handle root front old → read_all filter_in (roots root).chain ≡ Some fs
        → (later : List StoredFilter) × (fs ≡ front ++ old ∷ later) }
{}
