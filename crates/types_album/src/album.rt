//! The types of album.ipldsch, by ./dagcbor-types. Change that file, and run it again.

ghost use Rattle.std.specs.Prelude.{[], ◌∷◌, Option, Some, codes, pos, string_bytes, true, false};
ghost use Rattle.std.specs.Prelude.{refl};
ghost use Rattle.serde_ipld_dagcbor.specs.Tree.{text, integer, entries_tree};
ghost use Rattle.serde_ipld_dagcbor.specs.Trees.{field, optional};
ghost use Rattle.types_album.specs.Album.{format_variants, format_shape};
ghost use Rattle.types_album.specs.declared.album.Format.{Format};
ghost use Rattle.types_album.specs.declared.album.Format.TheVariants as in_format;
ghost use Rattle.types_album.specs.Album.{TrackView, track_shape};
ghost use Rattle.types_album.specs.Album.{AlbumView, album_shape};

use serde_ipld_dagcbor::{
    Closed, DecodeError, Deserialize, DeserializeOwned, Deserializer, EnumAccessor, Field,
    Omissible, Optional, Read, ReadResult, Required, Serialize, Serializer, Shown, Variants, Write,
    WriteResult, read_enum, read_struct, write_struct,
};
use std::alloc::Global;

/// What an album came out on.
#[derive(Clone, Copy, Debug, PartialEq, Eq)]
pub enum Format {
    Vinyl,
    Tape,
    Disc,
}

/// A piece of an album.
#[derive(Debug, Drop)]
pub struct Track {
    pub note: Option<String>,
    pub title: String,
    pub seconds: u32,
}

/// An album, whose year may be unknown.
#[derive(Debug, Drop)]
pub struct Album {
    pub year: Option<u16>,
    pub title: String,
    pub format: Format,
    pub tracks: Vec<Track>,
}

impl Serialize for Format {
    ghost tree = { λ v. elim v [
      | in_format.Vinyl ↦ Some (text (codes "Vinyl"))
      | in_format.Tape ↦ Some (text (codes "Tape"))
      | in_format.Disc ↦ Some (text (codes "Disc"))
    ] };

    ghost takes_memory = { false };

    fn serialize<W: Write>(&self, _alloc: Global, ser: &mut Serializer<W>) -> WriteResult<(), W> {
        match self {
            Format::Vinyl => ser.serialize_unit_variant("Format", 0, "Vinyl"),
            Format::Tape => ser.serialize_unit_variant("Format", 1, "Tape"),
            Format::Disc => ser.serialize_unit_variant("Format", 2, "Disc"),
        }
    }
}

impl Shown for Format {
    ghost View = { Format };

    ghost meaning = { λ v. v };

    ghost shape = { format_shape };
}

impl<'de> Variants<'de> for Format {
    ghost View = { Format };

    ghost meaning = { λ v. v };

    ghost shape = { format_variants };

    fn read_variant<R: Read>(
        _alloc: Global,
        name: &str,
        variant: EnumAccessor,
        de: &mut Deserializer<'de, R>,
    ) -> ReadResult<Format, R> {
        match name {
            "Vinyl" => {
                variant.unit_variant(de)?;
                Ok(Format::Vinyl)
            }
            "Tape" => {
                variant.unit_variant(de)?;
                Ok(Format::Tape)
            }
            "Disc" => {
                variant.unit_variant(de)?;
                Ok(Format::Disc)
            }
            _ => Err(DecodeError::custom("unknown variant")),
        }
    }
}

impl<'de> Deserialize<'de> for Format {
    fn deserialize<R: Read>(alloc: Global, de: &mut Deserializer<'de, R>) -> ReadResult<Self, R> {
        let names = &["Vinyl", "Tape", "Disc"];
        read_enum(alloc, "Format", names, de)
    }
}

impl<'de> DeserializeOwned<'de> for Format {
    ghost owned = { refl };
}

impl Serialize for Track {
    ghost tree = { λ v. entries_tree (
        optional (codes "note") (λ x. Some (text (string_bytes x))) v.note (
        field (codes "title") (Some (text (string_bytes v.title))) ∷
        field (codes "seconds") (Some (integer (pos v.seconds))) ∷ [])) };

    ghost takes_memory = { true };

    fn serialize<W: Write>(&self, alloc: Global, ser: &mut Serializer<W>) -> WriteResult<(), W> {
        let row = ();
        let row = (Field("seconds", &self.seconds), row);
        let row = (Field("title", &self.title), row);
        let row = (Optional("note", &self.note), row);
        write_struct(alloc, row, ser)
    }
}

impl Shown for Track {
    ghost View = { TrackView };

    ghost meaning = { λ v. (
      ⟦<Option<String> as Shown>⟧.meaning v.note,
      (string_bytes v.title, (v.seconds, tt)),
    ) };

    ghost shape = { track_shape };
}

impl<'de> Deserialize<'de> for Track {
    fn deserialize<R: Read>(alloc: Global, de: &mut Deserializer<'de, R>) -> ReadResult<Self, R> {
        let names = &["note", "title", "seconds"];
        let row = read_struct(alloc, "Track", names, de)?;
        let (Omissible(note), row) = row;
        let (Required(title), row) = row;
        let (Required(seconds), Closed) = row;
        Ok(Track {
            note,
            title,
            seconds,
        })
    }
}

impl<'de> DeserializeOwned<'de> for Track {
    ghost owned = { refl };
}

impl Serialize for Album {
    ghost tree = { λ v. entries_tree (
        optional (codes "year") (λ x. Some (integer (pos x))) v.year (
        field (codes "title") (Some (text (string_bytes v.title))) ∷
        field (codes "format") (⟦<Format as Serialize>⟧.tree v.format) ∷
        field (codes "tracks") (⟦<Vec<Track> as Serialize>⟧.tree v.tracks) ∷ [])) };

    ghost takes_memory = { true };

    fn serialize<W: Write>(&self, alloc: Global, ser: &mut Serializer<W>) -> WriteResult<(), W> {
        let row = ();
        let row = (Field("tracks", &self.tracks), row);
        let row = (Field("format", &self.format), row);
        let row = (Field("title", &self.title), row);
        let row = (Optional("year", &self.year), row);
        write_struct(alloc, row, ser)
    }
}

impl Shown for Album {
    ghost View = { AlbumView };

    ghost meaning = { λ v. (
      ⟦<Option<u16> as Shown>⟧.meaning v.year,
      (string_bytes v.title, (v.format, (⟦<Vec<Track> as Shown>⟧.meaning v.tracks, tt))),
    ) };

    ghost shape = { album_shape };
}

impl<'de> Deserialize<'de> for Album {
    fn deserialize<R: Read>(alloc: Global, de: &mut Deserializer<'de, R>) -> ReadResult<Self, R> {
        let names = &["year", "title", "format", "tracks"];
        let row = read_struct(alloc, "Album", names, de)?;
        let (Omissible(year), row) = row;
        let (Required(title), row) = row;
        let (Required(format), row) = row;
        let (Required(tracks), Closed) = row;
        Ok(Album {
            year,
            title,
            format,
            tracks,
        })
    }
}

impl<'de> DeserializeOwned<'de> for Album {
    ghost owned = { refl };
}
