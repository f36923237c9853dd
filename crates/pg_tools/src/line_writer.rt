//! The lines of `bridge` in the format that is asked for, with the key before each.

use crate::bridge_options::{BridgeOptions, Format};
use crate::line_parts::{BlockLine, ConfigLine, GapLine, Origin, StateLine};
use crate::line_queue::{Content, Entry, Gap};
use crate::lines::FrameTime;
use crate::reading::Reading;
use crate::{csv_lines, influx_lines, json_lines};
use pg_config::SourceConfig;
use pg_data::DataFrame;
use std::alloc::{AllocError, Global};

/// Writes lines.
#[derive(Clone, Copy)]
pub struct LineWriter<'a> {
    alloc: Global,
    format: Format,
    is_keyed: bool,
    origin: Origin<'a>,
}

impl<'a> LineWriter<'a> {
    /// In the format, with the name and the key, of these options.
    pub fn new(alloc: Global, options: &BridgeOptions<'a>) -> LineWriter<'a> {
        LineWriter {
            alloc,
            format: options.format,
            is_keyed: options.is_keyed,
            origin: Origin {
                gateway: options.name,
                stream: options.stream.get(),
            },
        }
    }

    /// The data lines of a frame, one for each PMU, behind this gap.
    ///
    /// # Errors
    ///
    /// There is no memory.
    pub fn frame(&self, frame: &DataFrame, gap: Option<Gap>) -> Result<Entry, AllocError> {
        let time = FrameTime::of(frame);
        let mut text = String::new(self.alloc);
        let mut lines = 0usize;
        for (i, part) in frame.config.parts.iter().enumerate() {
            if i < frame.count() {
                let line = BlockLine {
                    time,
                    quality: frame.quality,
                    idcode: part.id(),
                    reading: Reading::new(part, frame.block(i)),
                };
                self.put_block(&mut text, &line)?;
                lines = lines.saturating_add(1);
            }
        }
        Ok(Entry {
            content: Content::Frame(time, gap),
            lines,
            text,
        })
    }

    /// Adds the data line of a block.
    fn put_block(&self, out: &mut String, line: &BlockLine<'_>) -> Result<(), AllocError> {
        self.put_key(out, line.idcode)?;
        match self.format {
            Format::Json => json_lines::put_data(self.alloc, out, &self.origin, line)?,
            Format::Influx => influx_lines::put_data(self.alloc, out, &self.origin, line)?,
            Format::Csv => csv_lines::put_data(self.alloc, out, &self.origin, line)?,
        }
        out.push('\n')
    }

    /// The lines of a configuration, one for each PMU.
    ///
    /// # Errors
    ///
    /// There is no memory.
    pub fn config(&self, config: &SourceConfig, time: FrameTime) -> Result<Entry, AllocError> {
        let mut pmus = Vec::new(self.alloc);
        for part in config.parts.iter() {
            pmus.push(part.id())?;
        }
        let mut text = String::new(self.alloc);
        for part in config.parts.iter() {
            let line = ConfigLine {
                time,
                rate: part.rate,
                pmus: &pmus,
                idcode: part.id(),
                reading: Reading::new(part, &[]),
            };
            self.put_layout(&mut text, &line)?;
        }
        Ok(Entry {
            content: Content::Config,
            lines: config.parts.len(),
            text,
        })
    }

    /// Adds the configuration line of a PMU.
    fn put_layout(&self, out: &mut String, line: &ConfigLine<'_>) -> Result<(), AllocError> {
        self.put_key(out, line.idcode)?;
        match self.format {
            Format::Json => json_lines::put_config(self.alloc, out, &self.origin, line)?,
            Format::Influx => influx_lines::put_config(self.alloc, out, &self.origin, line)?,
            Format::Csv => csv_lines::put_config(self.alloc, out, &self.origin, line)?,
        }
        out.push('\n')
    }

    /// Adds a gap line.
    ///
    /// # Errors
    ///
    /// There is no memory.
    pub fn put_gap(&self, out: &mut String, line: &GapLine) -> Result<(), AllocError> {
        self.put_key(out, self.origin.stream)?;
        match self.format {
            Format::Json => json_lines::put_gap(self.alloc, out, &self.origin, line)?,
            Format::Influx => influx_lines::put_gap(out, &self.origin, line)?,
            Format::Csv => csv_lines::put_gap(out, &self.origin, line)?,
        }
        out.push('\n')
    }

    /// The state line.
    ///
    /// # Errors
    ///
    /// There is no memory.
    pub fn state(&self, line: &StateLine) -> Result<Entry, AllocError> {
        let mut text = String::new(self.alloc);
        self.put_key(&mut text, self.origin.stream)?;
        match self.format {
            Format::Json => json_lines::put_state(self.alloc, &mut text, &self.origin, line)?,
            Format::Influx => influx_lines::put_state(&mut text, &self.origin, line)?,
            Format::Csv => csv_lines::put_state(self.alloc, &mut text, &self.origin, line)?,
        }
        text.push('\n')?;
        Ok(Entry {
            content: Content::State,
            lines: 1,
            text,
        })
    }

    /// Adds the key of a line, where keys are asked for: the stream and the IDCODE that the line is of, and a tab.
    fn put_key(&self, out: &mut String, idcode: u16) -> Result<(), AllocError> {
        if !self.is_keyed {
            return Ok(());
        }
        let stream = self.origin.stream;
        write!(out, "{stream}/{idcode}\t")
    }
}
