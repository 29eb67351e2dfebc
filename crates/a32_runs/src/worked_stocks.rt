//! Worked runs of threads with a stock of numbers for those that they start.
ghost use Rattle.std.specs.Prelude.{◌∷◌, [], Some, None};
ghost use Rattle.guest_thread.specs.StockRun.{Comes, IsStockRun};
ghost use Rattle.a32_runs.specs.OneWord.{calling, thread_at};
ghost use Rattle.a32_step.specs.Machine.{a32};

use llsc_base::Stop;

/// A thread with a stock starts another, has its number in r0 and goes on behind the call, which is a step; without one it starts
/// none.
pub fn runs_with_a_stock()
    ensures starts { Comes a32 (Some (record { first = 2; count = 1 })) calling 1 (thread_at 0 4096 7 0 983041) []
        (record { child = 2; entry = 4096; arg = 7; place = 0 } ∷ []) (record { machine = thread_at 4 2 7 0 983041; steps = 1; output = [] }) }
    ensures ends { IsStockRun a32 (Some (record { first = 2; count = 1 })) calling 1 (thread_at 0 4096 7 0 983041) []
        (record { child = 2; entry = 4096; arg = 7; place = 0 } ∷ []) Stop.Budget 1 [] }
    ensures none_left { IsStockRun a32 (Some (record { first = 2; count = 0 })) calling 1 (thread_at 0 4096 7 0 983041) [] [] Stop.Budget 1 [] }
    ensures without { ¬ IsStockRun a32 None calling 1 (thread_at 0 4096 7 0 983041) []
        (record { child = 2; entry = 4096; arg = 7; place = 0 } ∷ []) Stop.Budget 1 [] }
{}
