ghost use Rattle.std.specs.Prelude.{◌≡◌, ℕ, ◌<◌, List, length, All, Ok};
ghost use Rattle.prof_bytes.specs.Number.{IsBytes};
ghost use Rattle.scope_types.specs.Distinct.{ColumnRaw, distinct, each_sample, samples_in};
ghost use Rattle.scope_types.specs.declared.frame.Counted.{Counted};
ghost use Rattle.measure_file.specs.declared.head.EventHead.{EventHead};
ghost use Rattle.measure_file.specs.declared.head.MeasureHead.{MeasureHead};
ghost use Rattle.measure_file.specs.Measurable.{AreMeasured, AreSampled, IsEventMeasurable, IsMeasurable};
ghost use Rattle.measure_file.specs.Reading.{event_measurement_in, measurement_in};
ghost use Rattle.measure_file.specs.Spelling.{event_measurement_spelling, measurement_spelling};

/// What is written is read as the same.
pub fn written_is_read()
    ensures { (head : MeasureHead) (tables : List (List Counted)) → IsMeasurable head tables
        → measurement_in (measurement_spelling head tables) ≡ Ok (head, tables) }
{}

/// What is read can be written, and has just these bytes.
pub fn read_is_written()
    ensures measurable { (bytes : List ℕ) (m : MeasureHead × List (List Counted)) → IsBytes bytes
        → measurement_in bytes ≡ Ok m → IsMeasurable m.0 m.1 }
    ensures bytes { (bytes : List ℕ) (m : MeasureHead × List (List Counted)) → IsBytes bytes
        → measurement_in bytes ≡ Ok m → bytes ≡ measurement_spelling m.0 m.1 }
{}

/// What is written of several events is read as the same.
pub fn event_written_is_read()
    ensures { (head : EventHead) (tables : List (List Counted)) → IsEventMeasurable head tables
        → event_measurement_in (event_measurement_spelling head tables) ≡ Ok (head, tables) }
{}

/// What is read of any version can be written, and has just these bytes.
pub fn event_read_is_written()
    ensures measurable { (bytes : List ℕ) (m : EventHead × List (List Counted)) → IsBytes bytes
        → event_measurement_in bytes ≡ Ok m → IsEventMeasurable m.0 m.1 }
    ensures bytes { (bytes : List ℕ) (m : EventHead × List (List Counted)) → IsBytes bytes
        → event_measurement_in bytes ≡ Ok m → bytes ≡ event_measurement_spelling m.0 m.1 }
{}

/// The samples of a measurement are each path of the file, column by column, as often as its count: as many as are
/// counted, each of a column that the file has. Counted again they give the measurement's paths.
pub fn measurements_count_samples()
    ensures distinct { (tables : List (List Counted)) → AreMeasured tables
        → distinct (length tables) (each_sample tables) ≡ tables }
    ensures many { (tables : List (List Counted)) → length (each_sample tables) ≡ samples_in tables }
    ensures columns { (tables : List (List Counted)) → All (λ s. s.column < length tables) (each_sample tables) }
{}

/// The counted paths of samples are those of a measurement, where samples and frames are within their limits, and paths
/// have 1 to 512 frames whose addresses have 32 bits.
pub fn samples_are_measured()
    ensures { (columns : ℕ) (samples : List ColumnRaw) → AreSampled columns samples
        → AreMeasured (distinct columns samples) }
{}
